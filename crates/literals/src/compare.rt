// Two contents against each other, with no buffer: each side is decoded by a cursor, and the first difference ends it.
ghost use Rattle.std.specs.Prelude.{◌≡◌};
ghost use Rattle.literals.specs.Content.{content, same_content};
ghost use Rattle.literals.specs.InternalContent.{Sound, Pieced, cursor_at};

use crate::decoder::{Body, Decoder, decode_step, may_end, start_of};
use text::few::Few;
use text::switches::Switches;

// A place in a body, the decoder there, and the bytes of content before it that have not been asked for yet.
#[derive(Clone, Copy)]
pub struct Cursor {
    pub place: usize,
    pub state: Decoder,
    pub out: Few,
}

// kept: three outcomes in one enum; the patterns of a Result of an Option of the two are no plainer.
// The next byte of a content and the cursor after it, or that the content is at its end, or that there is none.
#[derive(Clone, Copy)]
pub enum Piece {
    Byte(u8, Cursor),
    End,
    Bad,
}

fn cursor_at(place: usize, state: Decoder, out: Few) -> Cursor
    ensures { result ≡ cursor_at place state out }
{
    Cursor { place, state, out }
}

// The next byte of the content from a cursor on.
fn next_byte(sw: Switches, s: &[u8], from: Cursor) -> Piece
    requires { Sound from.state }
    ensures { Pieced sw s.now from result }
{
    let mut i = from.place;
    let mut state = from.state;
    let mut few = from.out;
    loop {
        if let Some((b, rest)) = few.split_first() {
            return Piece::Byte(b, cursor_at(i, state, rest));
        }
        if s.len() <= i {
            return if may_end(state) {
                Piece::End
            } else {
                Piece::Bad
            };
        }
        let step = decode_step(sw, state, s[i]);
        state = step.state;
        few = step.out;
        i += 1;
    }
}

// Whether two bodies have the same content.
pub fn same_content(sw: Switches, abody: Body, a: &[u8], bbody: Body, b: &[u8]) -> bool
    ensures { result ≡ same_content (content sw abody a.now) (content sw bbody b.now) }
{
    let mut left = cursor_at(0, start_of(abody), Few::Zero);
    let mut right = cursor_at(0, start_of(bbody), Few::Zero);
    loop {
        match next_byte(sw, a, left) {
            Piece::Byte(x, left_next) => match next_byte(sw, b, right) {
                Piece::Byte(y, right_next) => {
                    if x != y {
                        return false;
                    }
                    left = left_next;
                    right = right_next;
                }
                _ => return false,
            },
            Piece::End => return matches!(next_byte(sw, b, right), Piece::End),
            Piece::Bad => return false,
        }
    }
}
