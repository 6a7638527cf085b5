// The content call: the content of a string or key, given the text and a span.
ghost use Rattle.std.specs.Prelude.{◌≡◌, length};
ghost use Rattle.text.specs.Refusal.{numbered};
ghost use Rattle.text.specs.Switches.{present_edition};
ghost use Rattle.reader.specs.Content.{content_alone, fitting, content_call, content_given, written};

use lexer::token::put_token;
use literals::content::ContentError;
use text::refusal::Reason;
use text::span::MAX_TEXT;
use text::switches::{Switches, present};
use text::utf8::valid_front;

// Writes the content of a token at the output's front, if the bytes are one string or key and the output has room for it.
fn token_content(sw: Switches, token: &[u8], out: &mut [u8]) -> Result<usize, Reason>
    ensures { (numbered result ≡ content_given (fitting (length out.old) (content_alone sw token.now))) × (out.new ≡ written (fitting (length out.old) (content_alone sw token.now)) out.old) }
{
    if valid_front(token) != token.len() {
        return Err(Reason::NoString);
    }
    match put_token(sw, token, out) {
        Ok(n) => Ok(n),
        Err(ContentError::NoRoom) => Err(Reason::OutputFull),
        Err(ContentError::NoContent) => Err(Reason::NoString),
    }
}

// Writes the content of the string or key that stands in the text, of the edition that `sw` says, from `start` to before `end` at the
// output's front.
pub(crate) fn content_edition(
    sw: Switches,
    text: &[u8],
    start: usize,
    end: usize,
    out: &mut [u8],
) -> Result<usize, Reason>
    ensures { (numbered result ≡ content_given (content_call sw start end text.now out.old)) × (out.new ≡ written (content_call sw start end text.now out.old) out.old) }
{
    if end < start {
        return Err(Reason::NoString);
    }
    if text.len() < end {
        return Err(Reason::NoString);
    }
    if MAX_TEXT < end - start {
        return Err(Reason::NoString);
    }
    token_content(sw, &text[start..end], out)
}

// The same for a text of the present edition.
pub fn content(text: &[u8], start: usize, end: usize, out: &mut [u8]) -> Result<usize, Reason>
    ensures { (numbered result ≡ content_given (content_call present_edition start end text.now out.old)) × (out.new ≡ written (content_call present_edition start end text.now out.old) out.old) }
{
    content_edition(present(), text, start, end, out)
}
