// A change on trial: the new text is put together apart from the present one, and read.
ghost use Rattle.std.specs.Prelude.{◌≡◌, ◌≤◌, length};
ghost use Rattle.reader.specs.Reading.{max_text};
ghost use Rattle.text.specs.Refusal.{number_of};
ghost use Rattle.editor.specs.Edit.{told_change};
ghost use Rattle.editor.specs.Internal.{refused_with, Knows, Within, Judges};

use crate::buffers::put_splice;
use crate::change::{Change, InUse};
use reader::read::read_edition;
use text::refusal::{Reason, Refusal};
use text::span::{MAX_TEXT, Span};
use text::switches::Switches;

// What is known once the present text has been read: the edition's switches, the lengths in use, and the node count.
#[derive(Clone, Copy)]
pub(crate) struct Present {
    pub sw: Switches,
    pub used: InUse,
    pub nodes: usize,
}

// A change that is asked for: the bytes of the span are to be replaced, and the journal then has so many bytes in use.
#[derive(Clone, Copy)]
pub(crate) struct Plan {
    pub span: Span,
    pub journal: usize,
}

// A refusal at 0, with nothing changed.
pub(crate) fn refused(present: Present, reason: Reason) -> Change
    ensures { told_change result ≡ refused_with (number_of reason) present.nodes present.used }
{
    Change {
        verdict: Err(Refusal { reason, place: 0 }),
        nodes: present.nodes,
        used: present.used,
    }
}

// Judges a change: there is room for the new text and in the journal, and the new text reads. Then it stands at the front of `draft`, and
// its reading in the table. If the change is refused, the table is the present text's reading.
pub(crate) fn try_change(
    present: Present,
    text: &[u8],
    journal: &[u8],
    table: &mut [u32],
    plan: Plan,
    replacement: &[u8],
    draft: &mut [u8],
) -> Change
    requires knows { Knows present text.now journal.now table.old }
    requires within { Within present plan.span }
    requires max_text_in_bounds { max_text ≤ length draft.old }
    ensures { Judges present plan text.now journal.now (length table.old) replacement.now (told_change result) table.new draft.new }
{
    let sw = present.sw;
    let text_used = present.used.text;
    let span = plan.span;
    let new = span.start + replacement.len() + (text_used - span.stop);
    if text.len().min(MAX_TEXT) < new {
        return refused(present, Reason::TextFull);
    }
    if journal.len() < plan.journal {
        return refused(present, Reason::JournalFull);
    }
    put_splice(&text[..text_used], span, replacement, draft);
    match read_edition(sw, &draft[..new], table) {
        Ok(nodes) => Change {
            verdict: Ok(()),
            nodes,
            used: InUse {
                text: new,
                journal: plan.journal,
            },
        },
        Err(_) => {
            let _read = read_edition(sw, &text[..text_used], table);
            refused(present, Reason::Unreadable)
        }
    }
}
