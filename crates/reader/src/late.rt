// What a container's refusals come to. Its duplicate keys are looked for once, where it ends or where anything in it is refused; a
// duplicate comes before all that stands after it, so it is what is refused then.
ghost use Rattle.text.specs.Refusal.{told_by};
ghost use Rattle.reader.specs.Internal.Values.{
  Keys,
  KeyIn,
  FirstDuplicate,
  RefusedLate,
  RefusedLateAfter,
};

use super::keys::{ObjectKeys, key_refusal};
use super::tree::{Children, Kind};
use text::refusal::{Reason, Refusal};
use text::span::Span;
use text::switches::Switches;

// Up to so many keys are compared with one another, as the index would take longer.
const FEW_KEYS: usize = 16;

// The first duplicate key of a container's children; only an object's have keys.
pub(crate) fn find_duplicate(
    sw: Switches,
    text: &[u8],
    table: &[u32],
    kind: Kind,
    children: Children,
) -> Option<usize>
    requires { Keys sw text.now kind table.now children }
    ensures { FirstDuplicate sw text.now kind table.now children result }
{
    match kind {
        Kind::Object => {
            let keys = ObjectKeys {
                sw,
                text,
                table,
                first: children.first,
                next: children.next,
            };
            if children.count <= FEW_KEYS {
                return keys.duplicate_by_walk();
            }
            keys.duplicate_by_index()
        }
        Kind::Array | Kind::Tuple => None,
    }
}

// A refusal in a container after these children: 8 at a duplicate key of theirs, or else the refusal itself.
pub(crate) fn late_refusal(
    sw: Switches,
    text: &[u8],
    table: &[u32],
    kind: Kind,
    children: Children,
    refusal: Refusal,
) -> Refusal
    requires { Keys sw text.now kind table.now children }
    ensures { RefusedLate sw text.now kind table.now children (told_by refusal) (told_by result) }
{
    match find_duplicate(sw, text, table, kind, children) {
        Some(place) => Refusal {
            reason: Reason::DuplicateKey,
            place,
        },
        None => refusal,
    }
}

// The same after this key, which stands after these children, or in its value: 8 at a duplicate key of theirs, or at this key if it is among
// theirs, or else the refusal itself. Inlined, what it builds would stand on the stack once for each level of the cycle.
#[inline(never)]
pub(crate) fn late_after(
    sw: Switches,
    text: &[u8],
    table: &[u32],
    kind: Kind,
    children: Children,
    key: Span,
    refusal: Refusal,
) -> Refusal
    requires keys { Keys sw text.now kind table.now children }
    requires key_in { KeyIn sw text.now kind key }
    ensures { RefusedLateAfter sw text.now kind table.now children key (told_by refusal) (told_by result) }
{
    match kind {
        Kind::Object => match find_duplicate(sw, text, table, kind, children) {
            Some(place) => Refusal {
                reason: Reason::DuplicateKey,
                place,
            },
            None => {
                let keys = ObjectKeys {
                    sw,
                    text,
                    table,
                    first: children.first,
                    next: children.next,
                };
                key_refusal(&keys, key, refusal)
            }
        },
        Kind::Array | Kind::Tuple => refusal,
    }
}
