// The content of strings and keys: how long it is, and the content itself. A body is measured before it is written, so that a
// content that has no room, or none at all, leaves the output as it was.
ghost use Rattle.std.specs.Prelude.{◌≡◌, length};
ghost use Rattle.literals.specs.Content.{content, content_of, measured, fitted, placed};
ghost use Rattle.literals.specs.InternalContent.{HasRoom, PlainFront, AsWritten};

use crate::copy::{is_own_byte, is_plain};
use crate::decoder::{Body, decode_step, may_end, start_of};
use text::few::{Few, feed_text};
use text::switches::Switches;
use text::utf8::Utf8;

// Why a content was not written: there is none, or the output has no room for it.
#[derive(Clone, Copy, Debug, PartialEq, Eq)]
pub enum ContentError {
    NoContent,
    NoRoom,
}

// How many bytes at the front are printable ASCII other than the backslash.
fn plain_front(s: &[u8]) -> usize
    ensures { PlainFront s.now result }
{
    // kept: counted by `front`, as the lexer's runs are, a long string read slower by two thirds.
    let mut i = 0;
    while i < s.len() && is_plain(s[i]) {
        i += 1;
    }
    i
}

// How many bytes at the front of a body stand for themselves, so far as they are looked for: in base64 they are not.
fn written_front(body: Body, s: &[u8]) -> usize
    ensures { AsWritten body s.now result }
{
    match body {
        Body::Base64 => 0,
        _ => plain_front(s),
    }
}

// The length of a body's content, if it has one. A text's must be UTF-8: the machine that judges it is fed along. Both start after the bytes that
// stand for themselves.
pub fn measure_content(sw: Switches, is_text: bool, body: Body, s: &[u8]) -> Option<usize>
    ensures { result ≡ measured (content_of sw is_text body s.now) }
{
    let from = written_front(body, s);
    let mut state = start_of(body);
    let mut machine = Utf8::Whole(from);
    let mut size = from;
    for b in &s[from..] {
        if is_own_byte(state, *b) {
            size += 1;
            machine = feed_text(is_text, machine, Few::One(*b));
        } else {
            let step = decode_step(sw, state, *b);
            state = step.state;
            size += step.out.len();
            machine = feed_text(is_text, machine, step.out);
        }
    }
    if may_end(state) && (!is_text || machine.is_whole()) {
        Some(size)
    } else {
        None
    }
}

// Writes a body's content, which has been measured, at the output's front.
fn fill_front(sw: Switches, body: Body, s: &[u8], out: &mut [u8])
    requires { HasRoom (content sw body s.now) (length out.old) }
    ensures { out.new ≡ placed (content sw body s.now) out.old }
{
    let mut state = start_of(body);
    let mut filled = 0;
    for b in s {
        let step = decode_step(sw, state, *b);
        state = step.state;
        step.out.put(out, filled);
        filled += step.out.len();
    }
}

// Writes a body's content at the output's front, if it has one and the output has room for it, and answers how long it is.
pub fn write_content(
    sw: Switches,
    is_text: bool,
    body: Body,
    s: &[u8],
    out: &mut [u8],
) -> Result<usize, ContentError>
    ensures { (result ≡ fitted (length out.old) (content_of sw is_text body s.now)) × (out.new ≡ placed (content_of sw is_text body s.now) out.old) }
{
    match measure_content(sw, is_text, body, s) {
        None => Err(ContentError::NoContent),
        Some(n) if out.len() < n => Err(ContentError::NoRoom),
        Some(n) => {
            fill_front(sw, body, s, out);
            Ok(n)
        }
    }
}
