// What stands at a place of a text, and the next token from a place.
ghost use Rattle.std.specs.Prelude.{◌≡◌, ◌≤◌, ◌<◌, ◌+◌, ◌-◌, length, get_or, take, drop};
ghost use Rattle.text.specs.Refusal.{numbered, told};
ghost use Rattle.literals.specs.Content.{content_of};
ghost use Rattle.lexer.specs.Closing.{block};
ghost use Rattle.lexer.specs.Token.{comment, block_item, has_escapes, string_item, word_item, number_item, tokens_from};
ghost use Rattle.lexer.specs.Opening.{opening_of, opened_item};
ghost use Rattle.lexer.specs.Answer.{found, found_at, first_of};
ghost use Rattle.lexer.specs.Internal.{string_found};

use super::closing::{find_block, find_closing};
use super::opening::{Opening, StringHead, opening_of};
use super::runs::line_end;
use super::scanner::Scanner;
use literals::content::measure_content;
use literals::decoder::Body;
use literals::number::{NumberError, NumberValue, number_of};
use literals::word::has_shape;
use text::bytes;
use text::bytes::{byte_at, class_of, classes};
use text::refusal::{Reason, Refusal};
use text::span::Span;
use text::switches::Switches;

// A token's form with its value: a bracket or mark with its byte, a word, a text or bytes with the length of its content, an
// integer, a decimal (-1)^minus * m * 10^p.
#[derive(Clone, Copy)]
pub enum TokenKind {
    Mark(u8),
    Word,
    Text(usize),
    Bytes(usize),
    Integer(i64),
    Decimal { minus: bool, m: u64, p: i64 },
}

// A token: what it is, and where it stands.
#[derive(Clone, Copy)]
pub struct Token {
    pub kind: TokenKind,
    pub span: Span,
}

// What stands at a place: a space or a comment with its end, a token with its end, or nothing, past the text's end.
#[derive(Clone, Copy)]
pub enum Found {
    Gap(usize),
    Token(TokenKind, usize),
    Nothing,
}

// The next token from a place, or the text's end.
#[derive(Clone, Copy)]
pub enum Next {
    Token(Token),
    End(usize),
}

// ---- comments

// A slash at `at`: a comment, or malformed.
#[tactic(auto, using(crate::proofs::PlaceLaws::line_found, crate::proofs::PlaceLaws::block_found, crate::proofs::PlaceLaws::slash_found))]
fn comment_item(text: &[u8], at: usize) -> Result<Found, Reason>
    requires { at < length text.now }
    ensures { numbered result ≡ found at (comment (drop (at + 1) text.now)) }
{
    match byte_at(text, at + 1) {
        b'/' => Ok(Found::Gap(line_end(text, at + 2))),
        b'*' => block_item(text, at),
        _ => Err(Reason::Malformed),
    }
}

// `/*` at `at`.
#[tactic(auto, using(crate::proofs::PlaceLaws::unshut_found))]
fn block_item(text: &[u8], at: usize) -> Result<Found, Reason>
    requires { at + 1 < length text.now }
    ensures { numbered result ≡ found at (block_item (block (drop (at + 2) text.now))) }
{
    match find_block(text, at + 2) {
        Some(n) => Ok(Found::Gap(at + 2 + n)),
        None => Err(Reason::Malformed),
    }
}

// ---- strings

#[tactic(auto, unfolding(crate::specs::Token::has_escapes))]
fn has_escapes(body: Body) -> bool
    ensures { result ≡ has_escapes body }
{
    matches!(body, Body::Quoted)
}

// A string that opens so, by the span of its body; its closing quote and hashes follow that.
#[tactic(auto, using(crate::proofs::PlaceLaws::text_found, crate::proofs::PlaceLaws::bytes_found, crate::proofs::PlaceLaws::content_refused))]
fn content_item(sw: Switches, text: &[u8], head: StringHead, span: Span) -> Result<Found, Reason>
    requires { (span.start ≤ span.stop) × (span.stop + head.hashes < length text.now) }
    ensures { numbered result ≡ string_found head.is_text (span.stop + 1 + head.hashes) (content_of sw head.is_text head.body (take (span.stop - span.start) (drop span.start text.now))) }
{
    let end = span.stop + 1 + head.hashes;
    match measure_content(sw, head.is_text, head.body, &text[span.start..span.stop]) {
        Some(n) => {
            if head.is_text {
                return Ok(Found::Token(TokenKind::Text(n), end));
            }
            Ok(Found::Token(TokenKind::Bytes(n), end))
        }
        None => Err(Reason::BadContent),
    }
}

// A string that opens so at `at`.
fn string_item(sw: Switches, text: &[u8], at: usize, head: StringHead) -> Result<Found, Reason>
    requires { (0 < head.before) × (at + head.before ≤ length text.now) }
    ensures { numbered result ≡ found at (string_item sw head.is_text head.body (head.before - 1) head.hashes (drop (at + head.before) text.now)) }
{
    let start = at + head.before;
    match find_closing(text, start, has_escapes(head.body), head.hashes) {
        Some(n) => {
            let stop = start + (n - 1 - head.hashes);
            content_item(sw, text, head, Span { start, stop })
        }
        None => Err(Reason::Malformed),
    }
}

// ---- words and numbers

impl<'a> Scanner<'a> {
    #[tactic(auto, using(crate::proofs::PlaceLaws::word_found, crate::proofs::PlaceLaws::word_bad))]
    fn word_item(&self, at: usize) -> Result<Found, Reason>
        requires { at < length self.now.text.now }
        ensures { numbered result ≡ found at (word_item (get_or self.now.text.now at 0) (drop (at + 1) self.now.text.now)) }
    {
        let end = self.word_end(at + 1);
        if has_shape(&self.text[at..end]) {
            Ok(Found::Token(TokenKind::Word, end))
        } else {
            Err(Reason::Malformed)
        }
    }

    fn number_item(&self, at: usize) -> Result<Found, Reason>
        requires { at < length self.now.text.now }
        ensures { numbered result ≡ found at (number_item (get_or self.now.text.now at 0) (drop (at + 1) self.now.text.now)) }
    {
        let end = self.number_end(at + 1);
        match number_of(&self.text[at..end]) {
            Ok(NumberValue::Integer(value)) => Ok(Found::Token(TokenKind::Integer(value), end)),
            Ok(NumberValue::Decimal { minus, m, p }) => {
                Ok(Found::Token(TokenKind::Decimal { minus, m, p }, end))
            }
            Err(NumberError::Malformed) => Err(Reason::Malformed),
            Err(NumberError::TooWide) => Err(Reason::TooWide),
        }
    }

    // A small letter or a quote at `at`: a string where one opens, else a word. Inlined, its loops and those of comments would share their
    // registers with all that `item_by` does.
    #[inline(never)]
    #[tactic(auto, using(crate::proofs::OpeningLaws::opened_string, crate::proofs::OpeningLaws::opened_broken, crate::proofs::OpeningLaws::opened_word))]
    fn opened_item(&self, at: usize) -> Result<Found, Reason>
        requires { at < length self.now.text.now }
        ensures { numbered result ≡ found at (opened_item self.now.sw (opening_of self.now.sw (drop at self.now.text.now)) (drop at self.now.text.now)) }
    {
        match opening_of(self.sw, self.text, at) {
            Opening::String(head) => string_item(self.sw, self.text, at, head),
            Opening::Broken => Err(Reason::Malformed),
            Opening::Nothing => self.word_item(at),
        }
    }

    // What stands at a place of a text, by the class of the byte there.
    fn item_by(&self, at: usize) -> Result<Found, Reason>
        ensures { numbered result ≡ found_at self.now.sw self.now.text.now at }
    {
        if self.text.len() <= at {
            return Ok(Found::Nothing);
        }
        let b = self.text[at];
        match class_of(self.classes, b) {
            bytes::SPACE => Ok(Found::Gap(at + 1)),
            bytes::DIGIT | bytes::PLUS => self.number_item(at),
            bytes::CAPITAL => self.word_item(at),
            bytes::SMALL | bytes::QUOTE => self.opened_item(at),
            bytes::JOINER if b == b'_' => self.word_item(at),
            bytes::JOINER => self.number_item(at),
            bytes::TICK if self.sw.ticks => Err(Reason::Temporal),
            bytes::MARK => Ok(Found::Token(TokenKind::Mark(b), at + 1)),
            bytes::SLASH => comment_item(self.text, at),
            _ => Err(Reason::Malformed),
        }
    }
}

// The next token from a place, spaces and comments skipped; or the end; or what is refused before any token.
#[tactic(auto, using(crate::proofs::NextLaws::after_gap, crate::proofs::NextLaws::at_token, crate::proofs::NextLaws::at_fault, crate::proofs::NextLaws::at_end_law))]
pub fn next_token(sw: Switches, text: &[u8], at: usize) -> Result<Next, Refusal>
    ensures { told result ≡ first_of (tokens_from sw text.now at) }
{
    let table = classes();
    let scanner = Scanner {
        classes: &table,
        sw,
        text,
    };
    let mut i = at;
    loop {
        match scanner.item_by(i) {
            Ok(Found::Gap(end)) => i = end,
            Ok(Found::Token(kind, end)) => {
                let span = Span {
                    start: i,
                    stop: end,
                };
                return Ok(Next::Token(Token { kind, span }));
            }
            Err(reason) => return Err(Refusal { reason, place: i }),
            Ok(Found::Nothing) => return Ok(Next::End(i)),
        }
    }
}
