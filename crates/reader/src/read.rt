// The reading of a text into a table, and one value alone.
ghost use Rattle.std.specs.Prelude.{◌≡◌, ◌≤◌, length};
ghost use Rattle.text.specs.Refusal.{told};
ghost use Rattle.text.specs.Switches.{present_edition};
ghost use Rattle.reader.specs.Reading.{max_text, reading, reading_to, table_of, answer_of, node_limit, one_value};
ghost use Rattle.reader.specs.Internal.Values.{Roomy};
ghost use Rattle.reader.specs.Internal.Whole.{alone_at, WholeAt, JudgedAt};

use super::items::token_from;
use super::rows::{NO_PARENT, NODE_WORDS, clear};
use super::tree::{Limits, MAX_DEPTH, MAX_NODES, Rules, Spot};
use super::values::{Progress, fresh_due, read_value};
use lexer::item::{Next, next_token};
use text::refusal::{Reason, Refusal};
use text::span::{MAX_TEXT, Span};
use text::switches::{Switches, present};
use text::utf8::valid_front;

// A text that was read as one value, from `start` to `stop`, with so many nodes.
#[derive(Clone, Copy)]
pub struct Whole {
    pub start: usize,
    pub stop: usize,
    pub nodes: usize,
}

// Nothing after a value that was read to its end, `stop`.
fn only_value(
    sw: Switches,
    text: &[u8],
    start: usize,
    stop: usize,
    nodes: usize,
) -> Result<Whole, Refusal>
    ensures { told result ≡ alone_at sw text.now start stop nodes }
{
    match next_token(sw, text, stop) {
        Ok(Next::End(_)) => Ok(Whole { start, stop, nodes }),
        Ok(Next::Token(token)) => Err(Refusal {
            reason: Reason::Unexpected,
            place: token.span.start,
        }),
        Err(refusal) => Err(refusal),
    }
}

// The one value of a text, and nothing after it. `any`: a value of every kind, or else a root.
fn read_whole(rules: Rules, text: &[u8], table: &mut [u32], any: bool) -> Result<Whole, Refusal>
    requires roomy { Roomy rules.limits table.old }
    requires text_len_bound { length text.now ≤ max_text }
    ensures { WholeAt rules any text.now table.old table.new (told result) }
{
    let token = token_from(rules.sw, text, 0)?;
    let spot = Spot {
        node: 0,
        depth: 0,
        parent: NO_PARENT,
    };
    let due = fresh_due(any, token.span.start, Span { start: 0, stop: 0 }, spot);
    let progress = read_value(rules, text, table, due, token)?;
    only_value(
        rules.sw,
        text,
        token.span.start,
        progress.stop,
        progress.next,
    )
}

// The text is judged: its length, then its UTF-8, then its one value.
fn judge(rules: Rules, text: &[u8], table: &mut [u32], any: bool) -> Result<Whole, Refusal>
    requires { Roomy rules.limits table.old }
    ensures { JudgedAt rules any text.now table.old table.new (told result) }
{
    if MAX_TEXT < text.len() {
        return Err(Refusal {
            reason: Reason::TooLong,
            place: MAX_TEXT,
        });
    }
    let front = valid_front(text);
    if front < text.len() {
        return Err(Refusal {
            reason: Reason::NotUtf8,
            place: front,
        });
    }
    read_whole(rules, text, table, any)
}

// The nodes that a table of so many words has room for: at most 4,096.
pub fn node_limit(words: usize) -> usize
    ensures { result ≡ node_limit words }
{
    let rows = words / NODE_WORDS;
    if rows < MAX_NODES {
        return rows;
    }
    MAX_NODES
}

// Reads a text of the edition that `sw` says into the table, where at most `depth` containers may be open at once.
pub fn read_to(sw: Switches, depth: usize, text: &[u8], table: &mut [u32]) -> Result<usize, Refusal>
    ensures { (told result ≡ answer_of (reading_to sw depth (length table.old) text.now)) × (table.new ≡ table_of (length table.old) (reading_to sw depth (length table.old) text.now)) }
{
    clear(table);
    let limits = Limits {
        depth,
        nodes: node_limit(table.len()),
    };
    match judge(Rules { sw, limits }, text, table, false) {
        Ok(whole) => Ok(whole.nodes),
        Err(refusal) => {
            clear(table);
            Err(refusal)
        }
    }
}

// Reads a text of the edition that `sw` says into the table.
pub fn read_edition(sw: Switches, text: &[u8], table: &mut [u32]) -> Result<usize, Refusal>
    ensures { (told result ≡ answer_of (reading sw (length table.old) text.now)) × (table.new ≡ table_of (length table.old) (reading sw (length table.old) text.now)) }
{
    read_to(sw, MAX_DEPTH, text, table)
}

// Reads a text of the present edition into the table.
pub fn read(text: &[u8], table: &mut [u32]) -> Result<usize, Refusal>
    ensures { (told result ≡ answer_of (reading present_edition (length table.old) text.now)) × (table.new ≡ table_of (length table.old) (reading present_edition (length table.old) text.now)) }
{
    read_edition(present(), text, table)
}

// Whether a text is one value from its first byte to its last, alone and with 4,096 nodes: of every kind, or else a root.
pub fn one_value(sw: Switches, any: bool, text: &[u8]) -> bool
    ensures { result ≡ one_value sw any text.now }
{
    let mut table = [0u32; NODE_WORDS * MAX_NODES];
    let limits = Limits {
        depth: MAX_DEPTH,
        nodes: MAX_NODES,
    };
    match judge(Rules { sw, limits }, text, &mut table, any) {
        Ok(whole) => {
            if whole.start == 0 {
                return whole.stop == text.len();
            }
            false
        }
        Err(_) => false,
    }
}
