// Whether a text's first two tokens are keys with the same content.
ghost use Rattle.std.specs.Prelude.{◌≤◌, length};

use lexer::item::{Next, next_token};
use lexer::token::{content_is, is_key, is_keyed, part_of};
use text::switches::present;

fn no_keys(rt: &HostRuntime) {
    super::show::line(rt, "no keys");
}

// Two keys, by their bytes.
fn answer(rt: &HostRuntime, a: &[u8], b: &[u8]) {
    let sw = present();
    if !is_keyed(sw, a) || !is_keyed(sw, b) {
        no_keys(rt);
        return;
    }
    let part = part_of(sw, b);
    if content_is(sw, a, part.body, &b[part.span.start..part.span.stop]) {
        super::show::line(rt, "same");
    } else {
        super::show::line(rt, "different");
    }
}

// A key and the token from `at` on.
fn second(rt: &HostRuntime, key: &[u8], text: &[u8], at: usize)
    requires { at ≤ length text.now }
{
    match next_token(present(), text, at) {
        Ok(Next::Token(token)) if is_key(token) => {
            answer(rt, key, &text[token.span.start..token.span.stop]);
        }
        _ => no_keys(rt),
    }
}

// The first two tokens of a text.
pub(crate) fn compare(rt: &HostRuntime, text: &[u8]) {
    match next_token(present(), text, 0) {
        Ok(Next::Token(token)) if is_key(token) => {
            let span = token.span;
            second(rt, &text[span.start..span.stop], text, span.stop);
        }
        _ => no_keys(rt),
    }
}
