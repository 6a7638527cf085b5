// What a token begins: a container, a value that holds no others, an identifier, or nothing.
ghost use Rattle.std.specs.Prelude.{◌≡◌, true, ◌≤◌, pos, negsuc, length};
ghost use Rattle.std.specs.Int.Signed.{le_z};
ghost use Rattle.reader.specs.Tree.{integer, decimal, plus1000};
ghost use Rattle.reader.specs.Reading.{max_text};
ghost use Rattle.reader.specs.Syntax.{opens_with_capital};
ghost use Rattle.reader.specs.Internal.Tokens.{TokenHere, BeginsHere, leaf_of, plain_words, string_words, mark_begin, word_begin, DecimalFits};

use super::kinds::NodeKind;
use super::rows::MINUS;
use super::tree::{Begin, Kind, Words};
use lexer::item::{Token, TokenKind};
use text::bytes::same_bytes;
use text::span::Span;

// ---- numbers

// How many numbers a word has room for.
const WORD: u64 = 4294967296;

// The words of a value that its kind alone says.
fn plain_leaf(kind: NodeKind) -> Words
    ensures { result ≡ plain_words kind }
{
    Words {
        kind,
        low: 0,
        high: 0,
        extra: 0,
    }
}

// The words of a string: its token's span, and the length of its content.
fn string_leaf(kind: NodeKind, span: Span, length: usize) -> Words
    requires { (span.start ≤ max_text) × (span.stop ≤ max_text) × (length ≤ max_text) }
    ensures { result ≡ string_words kind span length }
{
    Words {
        kind,
        low: span.start as u32,
        high: span.stop as u32,
        extra: length as u32,
    }
}

fn integer_leaf(value: i64) -> Words
    ensures { result ≡ leaf_of (integer value) }
{
    let bits = value.cast_unsigned();
    Words {
        kind: NodeKind::Integer,
        low: (bits % WORD) as u32,
        high: (bits / WORD) as u32,
        extra: 0,
    }
}

// The power of ten of a decimal, as its word.
fn power_word(p: i64) -> u32
    requires { (le_z (negsuc 399) p ≡ true) × (le_z p (pos 400) ≡ true) }
    ensures { result ≡ plus1000 p }
{
    (p + 1000) as u32
}

fn decimal_leaf(minus: bool, m: u64, p: i64) -> Words
    requires { DecimalFits m p }
    ensures { result ≡ leaf_of (decimal minus m p) }
{
    let sign = if minus { MINUS } else { 0 };
    Words {
        kind: NodeKind::Decimal,
        low: (m % WORD) as u32,
        high: (m / WORD) as u32 + sign,
        extra: power_word(p),
    }
}

// ---- words and marks

#[tactic(auto, using(crate::proofs::BeginLaws::capital_in, crate::proofs::BeginLaws::capital_none, crate::proofs::BeginLaws::capital_low, crate::proofs::BeginLaws::capital_high))]
fn opens_with_capital(word: &[u8]) -> bool
    ensures { result ≡ opens_with_capital word.now }
{
    matches!(word, [b'A'..=b'Z', ..])
}

// kept: a `match` on the bytes of the words leaves a goal at each byte where a word may end or differ, 23 in all.
fn word_begin(word: &[u8]) -> Option<Begin>
    ensures { result ≡ word_begin word.now }
{
    if same_bytes(word, b"true") {
        return Some(Begin::Scalar(plain_leaf(NodeKind::True)));
    }
    if same_bytes(word, b"false") {
        return Some(Begin::Scalar(plain_leaf(NodeKind::False)));
    }
    if same_bytes(word, b"null") {
        return Some(Begin::Scalar(plain_leaf(NodeKind::Null)));
    }
    if opens_with_capital(word) {
        return Some(Begin::Identifier);
    }
    None
}

#[tactic(auto, unfolding(crate::specs::Internal::Tokens::mark_begin))]
fn mark_begin(b: u8) -> Option<Begin>
    ensures { result ≡ mark_begin b }
{
    match b {
        b'{' => Some(Begin::Container(Kind::Object)),
        b'[' => Some(Begin::Container(Kind::Array)),
        b'(' => Some(Begin::Container(Kind::Tuple)),
        _ => None,
    }
}

// ---- tokens

// What a token begins.
pub(crate) fn begin_of(text: &[u8], token: Token) -> Option<Begin>
    requires token_here { TokenHere text.now token }
    requires text_len_bound { length text.now ≤ max_text }
    ensures { BeginsHere text.now token result }
{
    let span = token.span;
    match token.kind {
        TokenKind::Mark(b) => mark_begin(b),
        TokenKind::Word => word_begin(&text[span.start..span.stop]),
        TokenKind::Text(n) => Some(Begin::Scalar(string_leaf(NodeKind::Text, span, n))),
        TokenKind::Bytes(n) => Some(Begin::Scalar(string_leaf(NodeKind::Bytes, span, n))),
        TokenKind::Integer(value) => Some(Begin::Scalar(integer_leaf(value))),
        TokenKind::Decimal { minus, m, p } => Some(Begin::Scalar(decimal_leaf(minus, m, p))),
    }
}
