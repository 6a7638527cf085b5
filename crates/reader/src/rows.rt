// The rows of the table.
ghost use Rattle.std.specs.Prelude.{◌≡◌, ◌≤◌, ◌<◌, ◌+◌, ◌*◌, length, set, replicate};
ghost use Rattle.std.proofs.lemmas.List.Edits.{sets};
ghost use Rattle.reader.specs.Tree.{node_words};
ghost use Rattle.reader.specs.Reading.{word_of};
ghost use Rattle.reader.specs.Internal.Values.{row_of, RowRoom};

use super::tree::{Due, Words};

// How many words a node has.
pub const NODE_WORDS: usize = 12;

// The words of a node by what they hold. `LOW`, `HIGH` and `EXTRA` are told by the kind: a container's count of children; a string's
// span and the length of its content; a number's two halves, and of a decimal the power of ten.
pub const KIND: usize = 0;

pub const PARENT: usize = 1;

pub const START: usize = 2;

pub const STOP: usize = 3;

pub const KEY_START: usize = 4;

pub const KEY_STOP: usize = 5;

pub const NAME_START: usize = 6;

pub const NAME_STOP: usize = 7;

pub const NEXT: usize = 8;

pub const LOW: usize = 9;

pub const HIGH: usize = 10;

pub const EXTRA: usize = 11;

// The top bit of word 10 of a decimal, which says its minus.
pub const MINUS: u32 = 2147483648;

// The parent's word of the root.
pub const NO_PARENT: u32 = 4294967295;

// Writes the words of a node whose value ends at `stop`; the next node that is not below it is `next`.
// kept: a line for each word, which names it; in an array they would be told by their order alone.
pub(crate) fn put_row(table: &mut [u32], due: Due, words: Words, stop: usize, next: usize)
    requires { RowRoom table.old due stop next }
    ensures { table.new ≡ sets table.old (node_words * due.spot.node) (row_of due words stop next) }
{
    let label = due.label;
    let row = NODE_WORDS * due.spot.node;
    table[row + KIND] = u32::from(words.kind);
    table[row + PARENT] = due.spot.parent;
    table[row + START] = label.start;
    table[row + STOP] = stop as u32;
    table[row + KEY_START] = label.key.start;
    table[row + KEY_STOP] = label.key.stop;
    table[row + NAME_START] = label.name.start;
    table[row + NAME_STOP] = label.name.stop;
    table[row + NEXT] = next as u32;
    table[row + LOW] = words.low;
    table[row + HIGH] = words.high;
    table[row + EXTRA] = words.extra;
}

// Writes word 3 of a node anew: the end of its identifier's bracket.
pub(crate) fn put_stop(table: &mut [u32], node: usize, stop: u32)
    requires { node_words * node + node_words ≤ length table.old }
    ensures { table.new ≡ set table.old (node_words * node + 3) stop }
{
    table[NODE_WORDS * node + STOP] = stop;
}

// Makes every word 0.
pub fn clear(table: &mut [u32])
    ensures { table.new ≡ replicate (length table.old) 0 }
{
    table.fill(0);
}

// Word `w` of a node; 0 past the table's end.
pub fn word32_of(table: &[u32], node: usize, w: usize) -> u32
    ensures { result ≡ word_of table.now node w }
{
    let at = NODE_WORDS.saturating_mul(node).saturating_add(w);
    table.get(at).copied().unwrap_or(0)
}

// The same as a place or a node's number.
pub fn word_of(table: &[u32], node: usize, w: usize) -> usize
    ensures { result ≡ word_of table.now node w }
{
    word32_of(table, node, w) as usize
}
