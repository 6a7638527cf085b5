// What opens a string: how its first bytes tell the string from a word.
ghost use Rattle.std.specs.Prelude.{◌≡◌, ◌&&◌, [], ◌∷◌, ◌≤◌, ◌<◌, ◌+◌, length, drop};
ghost use Rattle.text.specs.Bytes.{starts_with};
ghost use Rattle.lexer.specs.Opening.{string_opening, raw_opening, bytes_opening, opening_of};

use literals::decoder::Body;
use text::bytes::byte_at;
use text::runs::front;
use text::switches::Switches;

// How a string opens: as a text or as bytes, and how its body is decoded; the bytes before its body, with the opening quote; the
// hashes before that quote, which also stand after the closing one.
#[derive(Clone, Copy)]
pub struct StringHead {
    pub is_text: bool,
    pub body: Body,
    pub before: usize,
    pub hashes: usize,
}

// kept: three cases that `opened_item` tells apart; a Result of an Option says the same, longer.
// What opens at a place. Broken: `r` or `br` and hashes with no quote behind them, which is malformed. Nothing: no string.
#[derive(Clone, Copy)]
pub enum Opening {
    String(StringHead),
    Broken,
    Nothing,
}

fn string_opening(is_text: bool, body: Body, before: usize, hashes: usize) -> Opening
    ensures { result ≡ string_opening is_text body before hashes }
{
    Opening::String(StringHead {
        is_text,
        body,
        before,
        hashes,
    })
}

// After `r` or `br`, the `before` bytes before `from`.
fn raw_opening(text: &[u8], from: usize, is_text: bool, before: usize) -> Opening
    requires { (before ≤ from) × (from ≤ length text.now) }
    ensures { result ≡ raw_opening is_text before (drop from text.now) }
{
    let hashes = front(&text[from..], |b| b == b'#');
    match byte_at(text, from + hashes) {
        b'"' => string_opening(is_text, Body::Raw, before + hashes + 1, hashes),
        _ if hashes == 0 => Opening::Nothing,
        _ => Opening::Broken,
    }
}

// Whether `64"` stands at a place, in an edition where `b64"` opens a string.
#[tactic(auto, using(crate::proofs::OpeningLaws::base64_at))]
fn opens_base64(sw: Switches, text: &[u8], i: usize) -> bool
    ensures { result ≡ (sw.base64 && starts_with (54 ∷ 52 ∷ 34 ∷ []) (drop i text.now)) }
{
    sw.base64
        && byte_at(text, i) == b'6'
        && byte_at(text, i + 1) == b'4'
        && byte_at(text, i + 2) == b'"'
}

// After a `b` at `at`.
#[tactic(auto, using(crate::proofs::OpeningLaws::bytes_at_law))]
fn bytes_opening(sw: Switches, text: &[u8], at: usize) -> Opening
    requires { at < length text.now }
    ensures { result ≡ bytes_opening sw (drop (at + 1) text.now) }
{
    match byte_at(text, at + 1) {
        b'"' => string_opening(false, Body::Quoted, 2, 0),
        _ if opens_base64(sw, text, at + 1) => string_opening(false, Body::Base64, 4, 0),
        b'r' => raw_opening(text, at + 2, false, 2),
        _ => Opening::Nothing,
    }
}

// What opens at a place of a text.
#[tactic(auto, using(crate::proofs::OpeningLaws::opening_at))]
pub(crate) fn opening_of(sw: Switches, text: &[u8], at: usize) -> Opening
    ensures { result ≡ opening_of sw (drop at text.now) }
{
    match byte_at(text, at) {
        b'"' => string_opening(true, Body::Quoted, 1, 0),
        b'b' => bytes_opening(sw, text, at),
        b'r' => raw_opening(text, at + 1, true, 1),
        _ => Opening::Nothing,
    }
}
