// The calls for C and Rust, which `duper_c` exports: each answers one 64-bit number. A slice crosses as its pointer and its count of elements.
#![tactic(auto)]

ghost use Rattle.std.specs.Prelude.{◌≡◌, [], ◌∷◌, ◌≤◌, length};
ghost use Rattle.text.specs.Refusal.{told, told_by};
ghost use Rattle.text.specs.Switches.{present_edition};
ghost use Rattle.text.specs.Utf8.{utf8, whole_front, plain_eights};
ghost use Rattle.reader.specs.Reading.{reading, table_of, max_text};
ghost use Rattle.reader.specs.Content.{content_call, written};
ghost use Rattle.editor.specs.Edit.{in_use, lent_of, leaving, Shows, told_change, correct, undo};
ghost use Rattle.path.specs.Path.{found};
ghost use Rattle.summary.specs.Summary.{summary};
ghost use Rattle.salvage.specs.Salvage.{salvage};
ghost use Rattle.duper.specs.Numbers.{packed, content_number, read_number, crossing, crossed, found_number, SummaryCrosses, SalvageCrosses};
ghost use Rattle.duper.specs.Internal.{verdict_number, PlaceFits, words_of};

use editor::change::{Change, InUse};
use salvage::salvage::Salvaged;
use text::refusal::Refusal;
use text::utf8::check_utf8;

// What a refusal's number is multiplied by, so that its place can be added.
const FACTOR: u64 = 4294967296;

// A refusal as one number: its own times 4294967296, plus its place.
#[tactic(auto, unfolding(crate::specs::Numbers::packed))]
fn packed(refusal: Refusal) -> u64
    requires { refusal.place ≤ max_text }
    ensures { result ≡ packed (told_by refusal) }
{
    u64::from(refusal.reason.number()) * FACTOR + refusal.place as u64
}

// Checks bytes as UTF-8: the length of their longest front that is. `eights` is then how many times the check passed over eight bytes below
// 80 hex in one step.
pub fn duper_utf8(text: &[u8], eights: &mut [u64; 1]) -> u64
    ensures { (result ≡ whole_front (utf8 text.now)) × (eights.new ≡ plain_eights text.now ∷ []) }
{
    let checked = check_utf8(text);
    *eights = [checked.eights as u64];
    checked.front as u64
}

// Reads a text of the present edition into the table: the node count, or else the refusal times 4294967296 plus its place.
pub fn duper_read(text: &[u8], table: &mut [u32]) -> u64
    ensures { (result ≡ read_number (reading present_edition (length table.old) text.now)) × (table.new ≡ table_of (length table.old) (reading present_edition (length table.old) text.now)) }
{
    match reader::read::read(text, table) {
        Ok(nodes) => nodes as u64,
        Err(refusal) => packed(refusal),
    }
}

// Writes the content of the string or key that stands in the text from `start` to before `end` at the output's front: the bytes written,
// or else the refusal times 4294967296.
pub fn duper_content(text: &[u8], start: u64, end: u64, out: &mut [u8]) -> u64
    ensures { (result ≡ content_number (content_call present_edition start end text.now out.old)) × (out.new ≡ written (content_call present_edition start end text.now out.old) out.old) }
{
    match reader::content::content(text, start as usize, end as usize, out) {
        Ok(count) => count as u64,
        Err(reason) => packed(Refusal { reason, place: 0 }),
    }
}

// The refusal times 4294967296 plus its place, or 0; and the three numbers beside it, into `answer`.
fn tell(change: Change, answer: &mut [u64; 3]) -> u64
    requires { PlaceFits (told change.verdict) }
    ensures { (result ≡ verdict_number (told change.verdict)) × (answer.new ≡ words_of (told_change change)) }
{
    let used = change.used;
    *answer = [change.nodes as u64, used.text as u64, used.journal as u64];
    let verdict = change.verdict;
    match verdict {
        Ok(()) => 0,
        Err(refusal) => packed(refusal),
    }
}

// Replaces the value of a node, in the present edition: the refusal times 4294967296 plus its place, or 0 if it was done. `answer` is then
// the node count, the text's length in use and the journal's.
pub fn duper_correct(
    text: &mut [u8],
    used: usize,
    journal: &mut [u8],
    kept: usize,
    table: &mut [u32],
    node: usize,
    replacement: &[u8],
    answer: &mut [u64; 3],
) -> u64
    ensures { Shows crossed (correct present_edition (length table.old) (lent_of text.old journal.old (in_use used kept)) node replacement.now) (leaving (crossing result answer.new) text.new journal.new table.new) }
{
    let lengths = InUse {
        text: used,
        journal: kept,
    };
    let change = editor::edit::correct(text, journal, lengths, table, node, replacement);
    tell(change, answer)
}

// Takes back the correction that the journal's last entry is of, in the present edition: answers as `duper_correct` does.
pub fn duper_undo(
    text: &mut [u8],
    used: usize,
    journal: &mut [u8],
    kept: usize,
    table: &mut [u32],
    answer: &mut [u64; 3],
) -> u64
    ensures { Shows crossed (undo present_edition (length table.old) (lent_of text.old journal.old (in_use used kept))) (leaving (crossing result answer.new) text.new journal.new table.new) }
{
    let lengths = InUse {
        text: used,
        journal: kept,
    };
    let change = editor::edit::undo(text, journal, lengths, table);
    tell(change, answer)
}

// Reads a text of the present edition into the table, and answers the number of the node that the path leads to; or else the refusal times
// 4294967296 plus its place: that of the reading, or 23 and the number of the first step, from 0, that has no child to go to.
pub fn duper_find(text: &[u8], table: &mut [u32], path: &[u8]) -> u64
    ensures { (result ≡ found_number (found present_edition text.now path.now (reading present_edition (length table.old) text.now))) × (table.new ≡ table_of (length table.old) (reading present_edition (length table.old) text.now)) }
{
    match path::find::find(text, table, path) {
        Ok(node) => node as u64,
        Err(refusal) => packed(refusal),
    }
}

// Reads a text of the present edition into the table, and summarizes it: 0, or else the refusal times 4294967296 plus its place: that of the
// reading; or 21 and 0 for a root that is no array, else the number of the first element that is no object. `counts` is then how many heights
// are measured, null, absent and unfit, and `heights` the least, the greatest and the mean of the measured ones, in micrometres. A refusal
// leaves both as they were. Where no height is measured, `heights` stays as it was.
pub fn duper_summary(
    text: &[u8],
    table: &mut [u32],
    counts: &mut [u64; 4],
    heights: &mut [f64; 3],
) -> u64
    ensures { SummaryCrosses (summary present_edition text.now (reading present_edition (length table.old) text.now)) result counts.old counts.new heights.old heights.new × (table.new ≡ table_of (length table.old) (reading present_edition (length table.old) text.now)) }
{
    match summary::summary::summarize(text, table) {
        Ok(summary) => {
            let c = summary.counts;
            *counts = [c.measured, c.null, c.absent, c.unfit];
            if let Some(h) = summary.heights {
                *heights = [h.least, h.greatest, h.mean];
            }
            0
        }
        Err(refusal) => packed(refusal),
    }
}

// Salvages a log of lines of the present edition: 0, or else the refusal times 4294967296 plus its place. The lines that read by themselves go
// to the front of `out` as one array, and a number for each line to the front of `verdicts`: 0 if it is kept, else its refusal's. `answer` is
// then the bytes written and the number of lines. A refusal leaves `out` and `verdicts` as they were, and both numbers are 0. The table, into
// which the lines are read, is zeros in the end.
pub fn duper_salvage(
    log: &[u8],
    table: &mut [u32],
    out: &mut [u8],
    verdicts: &mut [u8],
    answer: &mut [u64; 2],
) -> u64
    ensures { SalvageCrosses (salvage present_edition (length table.old) log.now out.old verdicts.old) result answer.new out.new verdicts.new table.new }
{
    match salvage::salvage::salvage(log, table, out, verdicts) {
        Ok(Salvaged { bytes, lines }) => {
            *answer = [bytes as u64, lines as u64];
            0
        }
        Err(refusal) => {
            *answer = [0, 0];
            packed(refusal)
        }
    }
}
