// Keys: those of an object's children, the content of one, and whether one stands among them.
ghost use Rattle.std.specs.Prelude.{◌≡◌, ◌≤◌, length};
ghost use Rattle.text.specs.Refusal.{told_by};
ghost use Rattle.reader.specs.Reading.{word_of};
ghost use Rattle.reader.specs.Internal.Values.{HaveKeys, KeyHere, KeyCopied, FoundKey, KeyRefused};
ghost use Rattle.reader.specs.Internal.Keys.{HaveKeys-prop};

use super::rows::{KEY_START, KEY_STOP, word_of};
use super::siblings::side_by_side;
use lexer::token::{content_is, part_of};
use literals::copy::copy_content;
use text::refusal::{Reason, Refusal};
use text::span::Span;
use text::switches::Switches;

// The keys of an object's children. These are side by side in the table, from the node `first` to before `next`, and each names the one
// behind it by word 8.
#[derive(Clone, Copy)]
pub(crate) struct ObjectKeys<'a> {
    pub(crate) sw: Switches,
    pub(crate) text: &'a [u8],
    pub(crate) table: &'a [u32],
    pub(crate) first: usize,
    pub(crate) next: usize,
    ghost keys: { HaveKeys sw text.now table.now first next } by { HaveKeys-prop sw text.now table.now first next },
}

impl<'a> ObjectKeys<'a> {
    // Where the key of a child stands.
    pub(crate) fn span(&self, child: usize) -> Span
        ensures start { result.start ≡ word_of self.now.table.now child 4 }
        ensures stop { result.stop ≡ word_of self.now.table.now child 5 }
    {
        Span {
            start: word_of(self.table, child, KEY_START),
            stop: word_of(self.table, child, KEY_STOP),
        }
    }

    // Writes the content of a key into the output from `at` on, and answers where it ends; nothing if it has no room.
    pub(crate) fn copy(&self, key: Span, out: &mut [u8], at: usize) -> Option<usize>
        requires key_here { KeyHere self.now.sw self.now.text.now key.start key.stop }
        requires at_in_bounds { at ≤ length out.old }
        ensures { KeyCopied self.now.sw self.now.text.now key.start key.stop at out.new result }
    {
        let token = &self.text[key.start..key.stop];
        let part = part_of(self.sw, token);
        let own = &token[part.span.start..part.span.stop];
        copy_content(self.sw, part.body, own, out, at)
    }

    // Whether a key is one of those before the node `end`. Where its own content stands is found once, before the walk.
    pub(crate) fn has_before(&self, end: usize, key: Span) -> bool
        requires have_keys { HaveKeys self.now.sw self.now.text.now self.now.table.now self.now.first end }
        requires key_here { KeyHere self.now.sw self.now.text.now key.start key.stop }
        ensures { FoundKey self.now.sw self.now.text.now self.now.table.now self.now.first end key.start key.stop result }
    {
        let token = &self.text[key.start..key.stop];
        let part = part_of(self.sw, token);
        let own = &token[part.span.start..part.span.stop];
        for child in side_by_side(self.table, self.first, end) {
            let earlier = self.span(child);
            if content_is(
                self.sw,
                &self.text[earlier.start..earlier.stop],
                part.body,
                own,
            ) {
                return true;
            }
        }
        false
    }
}

// What is refused after a key, in its field: 8 at the key if it is one of these, or else the refusal itself.
pub(crate) fn key_refusal(keys: &ObjectKeys<'_>, key: Span, refusal: Refusal) -> Refusal
    requires { KeyHere keys.now.sw keys.now.text.now key.start key.stop }
    ensures { KeyRefused keys.now.sw keys.now.text.now keys.now.table.now keys.now.first keys.now.next key.start key.stop (told_by refusal) (told_by result) }
{
    if keys.has_before(keys.next, key) {
        let place = key.start;
        return Refusal {
            reason: Reason::DuplicateKey,
            place,
        };
    }
    refusal
}
