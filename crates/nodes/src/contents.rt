// Contents of strings and keys against given bytes, without a buffer.
ghost use Rattle.std.specs.Prelude.{◌≡◌};
ghost use Rattle.std.proofs.Math.Option.{some};
ghost use Rattle.literals.specs.Content.{same_content};
ghost use Rattle.reader.specs.Content.{content_alone, span_content};

use lexer::token::{content_is, is_keyed};
use literals::decoder::Body;
use text::span::MAX_TEXT;
use text::switches::Switches;
use text::utf8::valid_front;

// Whether a token alone has these bytes as its content. They are handed over as a word: its content is its own bytes.
fn token_content_is(sw: Switches, token: &[u8], bytes: &[u8]) -> bool
    ensures { result ≡ same_content (content_alone sw token.now) (some bytes.now) }
{
    if valid_front(token) != token.len() {
        return false;
    }
    if is_keyed(sw, token) {
        return content_is(sw, token, Body::Word, bytes);
    }
    false
}

// Whether the content of the string or key from `start` to before `stop` is these bytes; a span that isn't one has no content.
pub(crate) fn span_content_is(
    sw: Switches,
    text: &[u8],
    start: usize,
    stop: usize,
    bytes: &[u8],
) -> bool
    ensures { result ≡ same_content (span_content sw start stop text.now) (some bytes.now) }
{
    // kept: joined by `&&` or `||` the tests are known behind them only by an `elim` for each, so that the code gets shorter and its proof longer.
    if stop < start {
        return false;
    }
    if text.len() < stop {
        return false;
    }
    if MAX_TEXT < stop - start {
        return false;
    }
    token_content_is(sw, &text[start..stop], bytes)
}
