// Correction of one value, and undo, on lent buffers.
ghost use Rattle.std.specs.Prelude.{◌≡◌, length, replicate, Err};
ghost use Rattle.text.specs.Refusal.{refusal, told};
ghost use Rattle.text.specs.Switches.{present_edition};
ghost use Rattle.editor.specs.Edit.{lent_of, leaving, Shows, change_of, told_change, correct, undo};
ghost use Rattle.editor.specs.Internal.{Opens, Knows, Within, replaced, corrected_read, TrailerIs, undone_read};

use crate::buffers::put_text;
use crate::change::{Change, InUse};
use crate::journal::{TRAILER_BYTES, Trailer, last_entry, put_entry};
use crate::trial::{Plan, Present, refused, try_change};
use reader::read::{one_value, read_edition};
use reader::rows;
use reader::rows::{clear, word_of};
use text::refusal::{Reason, Refusal};
use text::span::{MAX_TEXT, Span};
use text::switches::{Switches, present};

// 11, and every word of the table 0.
fn refuse_lengths(table: &mut [u32]) -> Result<usize, Refusal>
    ensures { (told result ≡ Err (refusal 11 0)) × (table.new ≡ replicate (length table.old) 0) }
{
    clear(table);
    Err(Refusal {
        reason: Reason::LengthInUse,
        place: 0,
    })
}

// What every call begins with: the lengths in use are within their buffers, and the text in use is read into the table.
fn open_text(
    sw: Switches,
    text: &[u8],
    journal: &[u8],
    used: InUse,
    table: &mut [u32],
) -> Result<usize, Refusal>
    ensures { Opens sw (length table.old) (lent_of text.now journal.now used) table.new (told result) }
{
    if text.len() < used.text {
        return refuse_lengths(table);
    }
    if journal.len() < used.journal {
        return refuse_lengths(table);
    }
    read_edition(sw, &text[..used.text], table)
}

// Puts the replacement in place of the bytes of the span, and an entry that takes it back into the journal, if there is room and the new
// text reads.
fn replace(
    present: Present,
    text: &mut [u8],
    journal: &mut [u8],
    table: &mut [u32],
    span: Span,
    replacement: &[u8],
) -> Change
    requires knows { Knows present text.old journal.old table.old }
    requires within { Within present span }
    ensures { Shows change_of (replaced present text.old journal.old (length table.old) span replacement.now) (leaving (told_change result) text.new journal.new table.new) }
{
    let text_used = present.used.text;
    let journal_used = present.used.journal;
    let start = span.start;
    let stop = span.stop;
    let end = journal_used + (stop - start) + TRAILER_BYTES;
    let plan = Plan { span, journal: end };
    let mut draft = [0u8; MAX_TEXT];
    let change = try_change(present, text, journal, table, plan, replacement, &mut draft);
    let verdict = change.verdict;
    match verdict {
        Err(_) => change,
        Ok(()) => {
            let new = change.used.text;
            put_entry(
                journal,
                journal_used,
                &text[start..stop],
                start,
                replacement.len(),
            );
            put_text(text, text_used, &draft[..new]);
            change
        }
    }
}

// A correction once the present text has been read: there is such a node, and the replacement is one value.
fn correct_read(
    present: Present,
    text: &mut [u8],
    journal: &mut [u8],
    table: &mut [u32],
    node: usize,
    replacement: &[u8],
) -> Change
    requires { Knows present text.old journal.old table.old }
    ensures { Shows change_of (corrected_read present text.old journal.old (length table.old) node replacement.now) (leaving (told_change result) text.new journal.new table.new) }
{
    if present.nodes <= node {
        return refused(present, Reason::NoSuchNode);
    }
    let sw = present.sw;
    if !one_value(sw, 0 < node, replacement) {
        return refused(present, Reason::NotOneValue);
    }
    let span = Span {
        start: word_of(table, node, rows::START),
        stop: word_of(table, node, rows::STOP),
    };
    replace(present, text, journal, table, span, replacement)
}

// Replaces one value of a text of the edition that `sw` says: the node's, by its number in the text's reading.
pub(crate) fn correct_edition(
    sw: Switches,
    text: &mut [u8],
    journal: &mut [u8],
    used: InUse,
    table: &mut [u32],
    node: usize,
    replacement: &[u8],
) -> Change
    ensures { Shows change_of (correct sw (length table.old) (lent_of text.old journal.old used) node replacement.now) (leaving (told_change result) text.new journal.new table.new) }
{
    match open_text(sw, text, journal, used, table) {
        Err(refusal) => Change {
            verdict: Err(refusal),
            nodes: 0,
            used,
        },
        Ok(nodes) => {
            let present = Present { sw, used, nodes };
            correct_read(present, text, journal, table, node, replacement)
        }
    }
}

// The same for a text of the present edition.
pub fn correct(
    text: &mut [u8],
    journal: &mut [u8],
    used: InUse,
    table: &mut [u32],
    node: usize,
    replacement: &[u8],
) -> Change
    ensures { Shows change_of (correct present_edition (length table.old) (lent_of text.old journal.old used) node replacement.now) (leaving (told_change result) text.new journal.new table.new) }
{
    correct_edition(present(), text, journal, used, table, node, replacement)
}

// Puts the last entry's old bytes back in place of those that replaced them, if there is room and the new text reads.
fn undo_entry(
    present: Present,
    text: &mut [u8],
    journal: &[u8],
    table: &mut [u32],
    trailer: Trailer,
) -> Change
    requires knows { Knows present text.old journal.now table.old }
    requires trailer_is { TrailerIs present text.old journal.now trailer }
    ensures { Shows change_of (undone_read present text.old journal.now (length table.old)) (leaving (told_change result) text.new journal.now table.new) }
{
    let text_used = present.used.text;
    let journal_used = present.used.journal;
    let span = trailer.span;
    let end = journal_used - trailer.size;
    let plan = Plan { span, journal: end };
    let mut draft = [0u8; MAX_TEXT];
    let change = try_change(
        present,
        text,
        journal,
        table,
        plan,
        &journal[end..journal_used - TRAILER_BYTES],
        &mut draft,
    );
    let verdict = change.verdict;
    match verdict {
        Err(_) => change,
        Ok(()) => {
            let new = change.used.text;
            put_text(text, text_used, &draft[..new]);
            change
        }
    }
}

// An undo once the present text has been read: there is an entry, and it is good.
fn undo_read(present: Present, text: &mut [u8], journal: &[u8], table: &mut [u32]) -> Change
    requires { Knows present text.old journal.now table.old }
    ensures { Shows change_of (undone_read present text.old journal.now (length table.old)) (leaving (told_change result) text.new journal.now table.new) }
{
    let text_used = present.used.text;
    let journal_used = present.used.journal;
    match last_entry(&journal[..journal_used], &text[..text_used]) {
        Ok(trailer) => undo_entry(present, text, journal, table, trailer),
        Err(reason) => refused(present, reason),
    }
}

// Takes back the last correction that the journal holds, in a text of the edition that `sw` says. The journal is only read: its entry
// is cut off by the length that is answered.
pub(crate) fn undo_edition(
    sw: Switches,
    text: &mut [u8],
    journal: &[u8],
    used: InUse,
    table: &mut [u32],
) -> Change
    ensures { Shows change_of (undo sw (length table.old) (lent_of text.old journal.now used)) (leaving (told_change result) text.new journal.now table.new) }
{
    match open_text(sw, text, journal, used, table) {
        Err(refusal) => Change {
            verdict: Err(refusal),
            nodes: 0,
            used,
        },
        Ok(nodes) => {
            let present = Present { sw, used, nodes };
            undo_read(present, text, journal, table)
        }
    }
}

// The same for a text of the present edition.
pub fn undo(text: &mut [u8], journal: &[u8], used: InUse, table: &mut [u32]) -> Change
    ensures { Shows change_of (undo present_edition (length table.old) (lent_of text.old journal.now used)) (leaving (told_change result) text.new journal.now table.new) }
{
    undo_edition(present(), text, journal, used, table)
}
