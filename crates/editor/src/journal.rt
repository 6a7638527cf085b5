// The journal: numbers of 32 bits, low byte first, and entries.
ghost use Rattle.std.specs.Prelude.{◌≡◌, ◌≤◌, ◌<◌, ◌+◌, ◌++◌, length, drop};
ghost use Rattle.text.specs.Buffers.{overwritten};
ghost use Rattle.text.specs.Refusal.{numbered};
ghost use Rattle.editor.specs.Edit.{le32, from_le32, trailer, trailer_bytes};
ghost use Rattle.editor.specs.Internal.{last_entry};

use crate::buffers::put_at;
use text::refusal::Reason;
use text::span::Span;

// The bytes of a trailer: three numbers of four bytes each.
pub(crate) const TRAILER_BYTES: usize = 12;

// Writes the four low bytes of a number over those of `dst` from `at` on.
fn put_number(dst: &mut [u8], at: usize, number: usize)
    requires { at + 4 ≤ length dst.old }
    ensures { dst.new ≡ overwritten at (le32 number) dst.old }
{
    put_at(&number.to_le_bytes()[..4], dst, at);
}

// The number that stands in four bytes from `at` on.
fn number_at(s: &[u8], at: usize) -> usize
    requires { at + 4 ≤ length s.now }
    ensures { (result ≡ from_le32 (drop at s.now)) × (result < 4294967296) }
{
    u32::from_le_bytes([s[at], s[at + 1], s[at + 2], s[at + 3]]) as usize
}

// Writes an entry from `at` on: the old bytes, then the trailer with `start`, the replacement's length `new`, and the entry's own length.
pub(crate) fn put_entry(journal: &mut [u8], at: usize, old: &[u8], start: usize, new: usize)
    requires { at + length old.now + trailer_bytes ≤ length journal.old }
    ensures { journal.new ≡ overwritten at (old.now ++ trailer start new (length old.now)) journal.old }
{
    put_at(old, journal, at);
    let end = at + old.len();
    put_number(journal, end, start);
    put_number(journal, end + 4, new);
    put_number(journal, end + 8, old.len() + TRAILER_BYTES);
}

// What the trailer of a good entry says: its replacement stands in the text in the span, and the entry is `size` bytes long.
#[derive(Clone, Copy)]
pub(crate) struct Trailer {
    pub span: Span,
    pub size: usize,
}

// Reads the trailer at the end of a journal in use, and judges it.
pub(crate) fn last_entry(journal: &[u8], text: &[u8]) -> Result<Trailer, Reason>
    ensures { numbered result ≡ last_entry journal.now text.now }
{
    let length = journal.len();
    if length == 0 {
        return Err(Reason::NothingToUndo);
    }
    if length < TRAILER_BYTES {
        return Err(Reason::BadEntry);
    }
    let at = length - TRAILER_BYTES;
    let size = number_at(journal, at + 8);
    if size < TRAILER_BYTES {
        return Err(Reason::BadEntry);
    }
    if length < size {
        return Err(Reason::BadEntry);
    }
    let start = number_at(journal, at);
    let stop = start + number_at(journal, at + 4);
    if text.len() < stop {
        return Err(Reason::BadEntry);
    }
    let span = Span { start, stop };
    Ok(Trailer { span, size })
}
