// The content of a string or key that is known to have one, written in one go: nothing is measured before, and bytes that stand for
// themselves do not go through the decoder.
ghost use Rattle.std.specs.Prelude.{◌≡◌, ◌≤◌, true, length};
ghost use Rattle.literals.specs.Content.{content};
ghost use Rattle.literals.specs.InternalContent.{PlainByte, OwnByteIf, Copied};

use crate::decoder::{Body, Decoder, decode_step, start_of};
use text::switches::Switches;

// What opens an escape.
const BACKSLASH: u8 = b'\\';

// Whether a byte is printable ASCII other than the backslash: such a byte stands for itself in every body but base64.
pub(crate) fn is_plain(b: u8) -> bool
    ensures { result ≡ true → PlainByte b }
{
    matches!(b, b' '..=b'~') && b != BACKSLASH
}

// Whether a byte stands for itself in this state, and leaves the decoder in it, so far as it is printable ASCII.
#[tactic(auto, using(crate::proofs::PlainLaws::own_byte), unfolding(crate::proofs::PlainLaws::plainly))]
pub(crate) fn is_own_byte(state: Decoder, b: u8) -> bool
    ensures { OwnByteIf state b result }
{
    match state {
        Decoder::Plain | Decoder::Verbatim | Decoder::Letters => is_plain(b),
        _ => false,
    }
}

// Writes a body's content into the output from `at` on, and answers where it ends; nothing if it has no room. Public for the reader only,
// which lends it bodies that have a content.
pub fn copy_content(sw: Switches, body: Body, s: &[u8], out: &mut [u8], at: usize) -> Option<usize>
    requires { at ≤ length out.old }
    ensures { Copied (content sw body s.now) at out.new result }
{
    let mut state = start_of(body);
    let mut end = at;
    for b in s {
        if is_own_byte(state, *b) {
            if end == out.len() {
                return None;
            }
            out[end] = *b;
            end += 1;
        } else {
            let step = decode_step(sw, state, *b);
            let size = step.out.len();
            if out.len() - end < size {
                return None;
            }
            state = step.state;
            step.out.put(out, end);
            end += size;
        }
    }
    Some(end)
}
