// Values, containers and identifiers: readers that call each other in a cycle; the bytes left in the text fall.
ghost use Rattle.std.specs.Prelude.{◌≡◌, true, ◌≤◌, ◌<◌, length};
ghost use Rattle.text.specs.Refusal.{told};
ghost use Rattle.reader.specs.Reading.{max_text};
ghost use Rattle.reader.specs.Syntax.{container, identifier};
ghost use Rattle.reader.specs.Internal.Tokens.{IsToken, begins_at};
ghost use Rattle.reader.specs.Internal.Values.{
  Short,
  words_of,
  fresh_due,
  child_spot,
  named_due,
  no_children,
  RowRoom,
  leaf_progress,
  leaf_table,
  Ready,
  Placed,
  is_full,
  opening_refusal,
  number_or_0,
  ReadAs,
  Keys,
  BranchEnded,
};

use super::begin::begin_of;
use super::items::{Item, next_child, one_mark, token_after};
use super::kinds::NodeKind;
use super::late::{find_duplicate, late_after, late_refusal};
use super::rows::{put_row, put_stop};
use super::tree::{Begin, Children, Due, Kind, Label, Limits, Rules, SpanWords, Spot, Words};
use lexer::item::Token;
use text::refusal::{Reason, Refusal};
use text::span::Span;
use text::switches::Switches;

// How far the reading has come with a value: the place after it, and the number of nodes then.
#[derive(Clone, Copy)]
pub struct Progress {
    pub stop: usize,
    pub next: usize,
}

// ---- what is due

fn span_words(span: Span) -> SpanWords
    requires { Short span }
    ensures { result ≡ words_of span }
{
    SpanWords {
        start: span.start as u32,
        stop: span.stop as u32,
    }
}

// A value that begins at `start`, with no identifier so far.
pub(crate) fn fresh_due(any: bool, start: usize, key: Span, spot: Spot) -> Due
    requires { (start ≤ max_text) × Short key }
    ensures { result ≡ fresh_due any start key spot }
{
    let name = SpanWords { start: 0, stop: 0 };
    let label = Label {
        start: start as u32,
        key: span_words(key),
        name,
    };
    Due {
        any,
        fresh: true,
        label,
        spot,
    }
}

// A child of the value at this spot, as this node.
fn child_due(spot: Spot, node: usize, start: usize, key: Span) -> Due
    requires depth_bound { (spot.depth < 18446744073709551615) × (spot.node < 4294967296) }
    requires start_le_max_text { (start ≤ max_text) × Short key }
    ensures { result ≡ fresh_due true start key (child_spot spot node) }
{
    let own = Spot {
        node,
        depth: spot.depth + 1,
        parent: spot.node as u32,
    };
    fresh_due(true, start, key, own)
}

// The value in the bracket of the identifier with this name.
fn named_due(due: Due, name: Span) -> Due
    requires { Short name }
    ensures { result ≡ named_due due name }
{
    let key = due.label.key;
    let label = Label {
        start: due.label.start,
        key,
        name: span_words(name),
    };
    let spot = due.spot;
    Due {
        any: due.any,
        fresh: false,
        label,
        spot,
    }
}

// Whether a value that is due has no node left; one whose identifier was counted has its node.
fn is_full(limits: Limits, due: Due) -> bool
    ensures { result ≡ is_full limits due }
{
    if due.fresh {
        return limits.nodes <= due.spot.node;
    }
    false
}

// No children so far, of which the first would be this node.
fn no_children(first: usize) -> Children
    ensures { result ≡ no_children first }
{
    Children {
        first,
        next: first,
        count: 0,
    }
}

// Why a container that is due is refused where it opens, if it is.
fn opening_refusal(limits: Limits, due: Due) -> Option<Reason>
    ensures { number_or_0 result ≡ opening_refusal limits due }
{
    if limits.depth <= due.spot.depth {
        return Some(Reason::TooDeep);
    }
    if is_full(limits, due) {
        return Some(Reason::NoNodeLeft);
    }
    None
}

// ---- rows

// A value that holds no others, with its own words.
fn put_leaf(
    limits: Limits,
    table: &mut [u32],
    due: Due,
    span: Span,
    words: Words,
) -> Result<Progress, Refusal>
    requires ready { Ready limits table.old due }
    requires stop_le_max_text { span.stop ≤ max_text }
    ensures value { told result ≡ leaf_progress limits due span }
    ensures table_after { table.new ≡ leaf_table limits due span words table.old }
{
    let place = span.start;
    if due.any {
        if is_full(limits, due) {
            return Err(Refusal {
                reason: Reason::NoNodeLeft,
                place,
            });
        }
        let next = due.spot.node + 1;
        put_row(table, due, words, span.stop, next);
        return Ok(Progress {
            stop: span.stop,
            next,
        });
    }
    Err(Refusal {
        reason: Reason::Unexpected,
        place,
    })
}

// The end of a container, at `stop`: its row, or a refusal if a key of its children is a duplicate.
fn put_branch(
    sw: Switches,
    text: &[u8],
    table: &mut [u32],
    due: Due,
    kind: Kind,
    children: Children,
    stop: usize,
) -> Result<Progress, Refusal>
    requires keys { Keys sw text.now kind table.old children }
    requires row_room { RowRoom table.old due stop children.next }
    requires count_le_next { children.count ≤ children.next }
    ensures { BranchEnded sw text.now due kind children stop table.old table.new (told result) }
{
    match find_duplicate(sw, text, table, kind, children) {
        Some(place) => Err(Refusal {
            reason: Reason::DuplicateKey,
            place,
        }),
        None => {
            let words = Words {
                kind: NodeKind::from(kind),
                low: children.count as u32,
                high: 0,
                extra: 0,
            };
            put_row(table, due, words, stop, children.next);
            Ok(Progress {
                stop,
                next: children.next,
            })
        }
    }
}

// ---- the cycle

// The value that is due, by its first token.
#[cycle(value)]
pub(crate) fn read_value(
    rules: Rules,
    text: &[u8],
    table: &mut [u32],
    due: Due,
    token: Token,
) -> Result<Progress, Refusal>
    requires ready { Ready rules.limits table.old due }
    requires token { IsToken rules.sw text.now token }
    requires text_len_bound { length text.now ≤ max_text }
    ensures { ReadAs rules text.now due token.span (begins_at rules.sw text.now token.span) table.old table.new (told result) }
{
    let place = token.span.start;
    match begin_of(text, token) {
        Some(Begin::Container(kind)) => read_container(rules, text, table, due, kind, token.span),
        Some(Begin::Scalar(words)) => put_leaf(rules.limits, table, due, token.span, words),
        Some(Begin::Identifier) => read_identifier(rules, text, table, due, token.span),
        None => Err(Refusal {
            reason: Reason::Unexpected,
            place,
        }),
    }
}

// The object, array or tuple that this bracket opens. A duplicate key is not refused at the key but where the container ends or where
// anything in it is refused, so that its keys are looked through once.
#[cycle(value)]
fn read_container(
    rules: Rules,
    text: &[u8],
    table: &mut [u32],
    due: Due,
    kind: Kind,
    bracket: Span,
) -> Result<Progress, Refusal>
    requires ready { Ready rules.limits table.old due }
    requires placed { Placed text.now bracket }
    ensures { ReadAs rules text.now due bracket (container kind) table.old table.new (told result) }
{
    let place = bracket.start;
    if let Some(reason) = opening_refusal(rules.limits, due) {
        return Err(Refusal { reason, place });
    }
    let spot = due.spot;
    let mut from = bracket.stop;
    let mut children = no_children(spot.node + 1);
    let mut item = next_child(rules.sw, text, kind, children.count, from);
    loop {
        match item {
            Item::Refused(refusal) => {
                let late = late_refusal(rules.sw, text, table, kind, children, refusal);
                return Err(late);
            }
            Item::RefusedAfter { key, refusal } => {
                let late = late_after(rules.sw, text, table, kind, children, key, refusal);
                return Err(late);
            }
            Item::Last(end) => return put_branch(rules.sw, text, table, due, kind, children, end),
            Item::Value { token, key } => {
                let child = child_due(spot, children.next, token.span.start, key);
                match read_value(rules, text, table, child, token) {
                    Err(refusal) => {
                        let late = late_after(rules.sw, text, table, kind, children, key, refusal);
                        return Err(late);
                    }
                    Ok(Progress { stop, next }) => {
                        children.next = next;
                        children.count += 1;
                        from = stop;
                        item = next_child(rules.sw, text, kind, children.count, from);
                    }
                }
            }
        }
    }
}

// The identifier with this name, and the value in its bracket.
#[cycle(value)]
fn read_identifier(
    rules: Rules,
    text: &[u8],
    table: &mut [u32],
    due: Due,
    name: Span,
) -> Result<Progress, Refusal>
    requires ready { Ready rules.limits table.old due }
    requires placed { Placed text.now name }
    ensures { ReadAs rules text.now due name identifier table.old table.new (told result) }
{
    let place = name.start;
    if !due.fresh {
        return Err(Refusal {
            reason: Reason::Unexpected,
            place,
        });
    }
    if rules.limits.nodes <= due.spot.node {
        return Err(Refusal {
            reason: Reason::NoNodeLeft,
            place,
        });
    }
    let inner = named_due(due, name);
    // kept: with `?` each level of the cycle takes 48 bytes more of the stack, and a reading at the greatest depth passes 64 KiB.
    match token_after(rules.sw, text, name.stop, b'(') {
        Err(refusal) => Err(refusal),
        Ok(token) => match read_value(rules, text, table, inner, token) {
            Err(refusal) => Err(refusal),
            Ok(progress) => match one_mark(rules.sw, text, progress.stop, b')') {
                Err(refusal) => Err(refusal),
                Ok(stop) => {
                    put_stop(table, due.spot.node, stop as u32);
                    Ok(Progress {
                        stop,
                        next: progress.next,
                    })
                }
            },
        },
    }
}
