// The decoder of contents: fed the bytes between the quotes one by one, it gives the content's bytes.
ghost use Rattle.std.specs.Prelude.{◌≡◌, ◌<◌, ◌*◌, MatchOption};
ghost use Rattle.text.specs.Bytes.{is_space};
ghost use Rattle.text.specs.Utf8.{encode};
ghost use Rattle.literals.specs.Content.{
  decode_step,
  may_end,
  start_of,
  quoted_refuses,
  plain_step,
  many_digits,
  escape_step,
  hex_done,
  hex_digit,
  hex_step,
  raw_refuses,
  raw_step,
  sextet,
  base64_digit,
  whole_bytes,
  pad,
  digits_step,
  pads_step,
};
ghost use Rattle.literals.specs.InternalContent.{Sound, hex_room, bit_room};

use text::bytes::digit_value;
use text::few::Few;
use text::switches::Switches;
use text::utf8::utf8_of;

// Control characters: the last of those below the space, and those that have no literal of their own.
const LAST_CONTROL: u8 = 0x1f;

const BACKSPACE: u8 = 0x08;

const FORM_FEED: u8 = 0x0c;

const DELETE: u8 = 0x7f;

// The scalar values are those up to the last but the surrogates.
const FIRST_SURROGATE: u32 = 0xd800;

const AFTER_SURROGATES: u32 = 0xe000;

const LAST_SCALAR: u32 = 0x10ffff;

// What stands between the quotes, or a word: how its bytes are to be decoded.
#[derive(Clone, Copy)]
pub enum Body {
    Quoted,
    Raw,
    Base64,
    Word,
}

// Where the decoder stands. Plain, Escape, Hex: in a quoted body, between characters, after a backslash, and in `\x` (byte) or
// `\u`, `\U`, with the value so far and `left` digits due after the next one. Verbatim: in a raw body. Letters: in a word.
// Digits, Pads: in a base64 body, the count of digits being `phase` modulo 4 and `rest` the bits that no byte has been given of yet;
// after a pad, when `left` more may follow. Bad: no content.
#[derive(Clone, Copy)]
pub enum Decoder {
    Plain,
    Escape,
    Hex { byte: bool, left: usize, value: u32 },
    Verbatim,
    Letters,
    Digits { phase: u8, rest: u8 },
    Pads { left: u8 },
    Bad,
}

// The decoder after a byte, and the bytes of content that are known with it.
#[derive(Clone, Copy)]
pub struct Decoded {
    pub state: Decoder,
    pub out: Few,
}

// The decoder at the start of a body.
#[tactic(auto, unfolding(crate::specs::Content::start_of))]
pub(crate) fn start_of(body: Body) -> Decoder
    ensures { result ≡ start_of body }
{
    match body {
        Body::Quoted => Decoder::Plain,
        Body::Raw => Decoder::Verbatim,
        Body::Base64 => Decoder::Digits { phase: 0, rest: 0 },
        Body::Word => Decoder::Letters,
    }
}

// The decoder's next state, with no byte of content.
fn silent(state: Decoder) -> Decoded
    ensures { result ≡ record { state = state; out = Few.Zero } }
{
    Decoded {
        state,
        out: Few::Zero,
    }
}

// The same with one byte of content.
fn single(state: Decoder, b: u8) -> Decoded
    ensures { result ≡ record { state = state; out = Few.One b } }
{
    Decoded {
        state,
        out: Few::One(b),
    }
}

// Whether a byte may not stand unescaped in a quoted body.
#[tactic(auto, unfolding(crate::specs::Content::quoted_refuses))]
fn quoted_refuses(sw: Switches, b: u8) -> bool
    ensures { result ≡ quoted_refuses sw b }
{
    match b {
        b'\t' => !sw.quoted_tab,
        b'\n' => !sw.quoted_feed,
        0..=LAST_CONTROL | DELETE => true,
        _ => false,
    }
}

#[tactic(auto, unfolding(crate::specs::Content::plain_step))]
fn plain_step(sw: Switches, b: u8) -> Decoded
    ensures { result ≡ plain_step sw b }
{
    if b == b'\\' {
        silent(Decoder::Escape)
    } else if quoted_refuses(sw, b) {
        silent(Decoder::Bad)
    } else {
        single(Decoder::Plain, b)
    }
}

// The letter of an escape of several digits.
#[tactic(auto, unfolding(crate::specs::Content::many_digits))]
fn many_digits(sw: Switches, b: u8) -> Decoded
    ensures { result ≡ many_digits sw b }
{
    match b {
        b'x' => silent(Decoder::Hex {
            byte: true,
            left: 1,
            value: 0,
        }),
        b'u' => silent(Decoder::Hex {
            byte: false,
            left: 3,
            value: 0,
        }),
        b'U' if sw.long_escape => silent(Decoder::Hex {
            byte: false,
            left: 7,
            value: 0,
        }),
        _ => silent(Decoder::Bad),
    }
}

// The byte after a backslash.
#[tactic(auto, unfolding(crate::specs::Content::escape_step, crate::specs::Content::one_letter, crate::specs::Content::escaped))]
fn escape_step(sw: Switches, b: u8) -> Decoded
    ensures { result ≡ escape_step sw b }
{
    match b {
        b'0' => single(Decoder::Plain, b'\0'),
        b'b' => single(Decoder::Plain, BACKSPACE),
        b't' => single(Decoder::Plain, b'\t'),
        b'n' => single(Decoder::Plain, b'\n'),
        b'f' => single(Decoder::Plain, FORM_FEED),
        b'r' => single(Decoder::Plain, b'\r'),
        b'"' | b'\\' => single(Decoder::Plain, b),
        _ => many_digits(sw, b),
    }
}

// The UTF-8 of a scalar value, between characters again.
fn scalar_done(value: u32) -> Decoded
    requires { value < 0x110000 }
    ensures { result ≡ record { state = Decoder.Plain; out = encode value } }
{
    Decoded {
        state: Decoder::Plain,
        out: utf8_of(value),
    }
}

// An escape's last digit has been read, with this value.
#[tactic(auto, unfolding(text::specs::Utf8::is_scalar, crate::specs::Content::hex_done, crate::specs::InternalContent::hex_room))]
fn hex_done(byte: bool, value: u32) -> Decoded
    requires { value < 16 * hex_room byte 0 }
    ensures { result ≡ hex_done byte value }
{
    if byte {
        return single(Decoder::Plain, value as u8);
    }
    match value {
        0..FIRST_SURROGATE | AFTER_SURROGATES..=LAST_SCALAR => scalar_done(value),
        _ => silent(Decoder::Bad),
    }
}

// A digit of an escape has been read, with the value so far, and `left` digits are due.
#[tactic(auto, unfolding(crate::specs::Content::hex_digit))]
fn hex_digit(byte: bool, left: usize, value: u32) -> Decoded
    requires { value < 16 * hex_room byte left }
    ensures { result ≡ hex_digit byte left value }
{
    if left == 0 {
        return hex_done(byte, value);
    }
    silent(Decoder::Hex {
        byte,
        left: left - 1,
        value,
    })
}

#[tactic(auto, using(crate::proofs::DecoderLaws::room_small), unfolding(crate::specs::Content::hex_step))]
fn hex_step(byte: bool, left: usize, value: u32, b: u8) -> Decoded
    requires { value < hex_room byte left }
    ensures { result ≡ hex_step byte left value b }
{
    match digit_value(b) {
        Some(d) => hex_digit(byte, left, value * 16 + u32::from(d)),
        None => silent(Decoder::Bad),
    }
}

// Whether a byte may not stand in a raw body.
#[tactic(auto, unfolding(crate::specs::Content::raw_refuses))]
fn raw_refuses(sw: Switches, b: u8) -> bool
    ensures { result ≡ raw_refuses sw b }
{
    match b {
        b'\n' => false,
        b'\r' => !sw.raw_return,
        0..=LAST_CONTROL | DELETE => true,
        _ => false,
    }
}

#[tactic(auto, unfolding(crate::specs::Content::raw_step))]
fn raw_step(sw: Switches, b: u8) -> Decoded
    ensures { result ≡ raw_step sw b }
{
    if raw_refuses(sw, b) {
        silent(Decoder::Bad)
    } else {
        single(Decoder::Verbatim, b)
    }
}

fn is_space(b: u8) -> bool
    ensures { result ≡ is_space b }
{
    matches!(b, b'\t' | b'\n' | b'\r' | b' ')
}

// The value of a base64 digit.
#[tactic(auto, unfolding(crate::specs::Content::sextet))]
fn sextet(b: u8) -> Option<u8>
    ensures { MatchOption result (sextet b ≡ 64) (λ v. (v ≡ sextet b) × (v < 64)) }
{
    match b {
        b'A'..=b'Z' => Some(b - b'A'),
        b'a'..=b'z' => Some(b - b'a' + 26),
        b'0'..=b'9' => Some(b - b'0' + 52),
        b'+' => Some(62),
        b'/' => Some(63),
        _ => None,
    }
}

// A base64 digit of this value: the bits that it adds to `rest` make a byte, but for the first digit of four.
#[tactic(auto, unfolding(crate::specs::Content::base64_digit, crate::specs::InternalContent::bit_room))]
fn base64_digit(phase: u8, rest: u8, value: u8) -> Decoded
    requires { (rest < bit_room phase) × (value < 64) }
    ensures { result ≡ base64_digit phase rest value }
{
    match phase {
        0 => silent(Decoder::Digits {
            phase: 1,
            rest: value,
        }),
        1 => single(
            Decoder::Digits {
                phase: 2,
                rest: value % 16,
            },
            rest * 4 + value / 16,
        ),
        2 => single(
            Decoder::Digits {
                phase: 3,
                rest: value % 4,
            },
            rest * 16 + value / 4,
        ),
        _ => single(Decoder::Digits { phase: 0, rest: 0 }, rest * 64 + value),
    }
}

// Whether no digit stands alone and no bit is left over.
#[tactic(auto, unfolding(crate::specs::Content::whole_bytes))]
fn whole_bytes(phase: u8, rest: u8) -> bool
    ensures { result ≡ whole_bytes phase rest }
{
    phase != 1 && rest == 0
}

// A pad where `left` may stand.
#[tactic(auto, unfolding(crate::specs::Content::pad))]
fn pad_step(left: u8) -> Decoded
    ensures { result ≡ pad left }
{
    if left == 0 {
        return silent(Decoder::Bad);
    }
    silent(Decoder::Pads { left: left - 1 })
}

#[tactic(auto, unfolding(crate::specs::Content::digits_step))]
fn digits_step(phase: u8, rest: u8, b: u8) -> Decoded
    requires { rest < bit_room phase }
    ensures { result ≡ digits_step phase rest b }
{
    if is_space(b) {
        return silent(Decoder::Digits { phase, rest });
    }
    if b == b'=' {
        return if whole_bytes(phase, rest) {
            pad_step((4 - phase) % 4)
        } else {
            silent(Decoder::Bad)
        };
    }
    match sextet(b) {
        Some(value) => base64_digit(phase, rest, value),
        None => silent(Decoder::Bad),
    }
}

#[tactic(auto, unfolding(crate::specs::Content::pads_step))]
fn pads_step(left: u8, b: u8) -> Decoded
    ensures { result ≡ pads_step left b }
{
    if is_space(b) {
        silent(Decoder::Pads { left })
    } else if b == b'=' {
        pad_step(left)
    } else {
        silent(Decoder::Bad)
    }
}

// The decoder after one byte more. The modules beside this one start it at `start_of` and feed it bytes: then its numbers have room
// for what is due.
#[tactic(auto, unfolding(crate::specs::Content::decode_step, crate::specs::InternalContent::Sound))]
pub(crate) fn decode_step(sw: Switches, state: Decoder, b: u8) -> Decoded
    requires { Sound state }
    ensures { result ≡ decode_step sw state b }
{
    match state {
        Decoder::Plain => plain_step(sw, b),
        Decoder::Escape => escape_step(sw, b),
        Decoder::Hex { byte, left, value } => hex_step(byte, left, value, b),
        Decoder::Verbatim => raw_step(sw, b),
        Decoder::Letters => single(Decoder::Letters, b),
        Decoder::Digits { phase, rest } => digits_step(phase, rest, b),
        Decoder::Pads { left } => pads_step(left, b),
        Decoder::Bad => silent(Decoder::Bad),
    }
}

// Whether a body may end where the decoder stands.
#[tactic(auto, unfolding(crate::specs::Content::may_end))]
pub(crate) fn may_end(state: Decoder) -> bool
    ensures { result ≡ may_end state }
{
    match state {
        Decoder::Plain | Decoder::Verbatim | Decoder::Letters | Decoder::Pads { .. } => true,
        Decoder::Digits { phase, rest } => whole_bytes(phase, rest),
        Decoder::Escape | Decoder::Hex { .. } | Decoder::Bad => false,
    }
}
