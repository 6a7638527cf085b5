// A token by itself: the content of a string or key, by its bytes alone.
ghost use Rattle.std.specs.Prelude.{◌≡◌, length};
ghost use Rattle.literals.specs.Content.{content, fitted, placed, same_content};
ghost use Rattle.lexer.specs.Token.{token_content};
ghost use Rattle.lexer.specs.Opening.{word_part, part_of};
ghost use Rattle.lexer.specs.Internal.{is_key, holds_content, has_content, Keyed};

use super::item::{Next, Token, TokenKind, next_token};
use super::opening::{Opening, opening_of};
use literals::compare::same_content;
use literals::content::{ContentError, write_content};
use literals::decoder::Body;
use text::span::Span;
use text::switches::Switches;

// Where a string or key holds its content, and how it is decoded.
#[derive(Clone, Copy)]
pub struct Part {
    pub is_text: bool,
    pub body: Body,
    pub span: Span,
}

// The part of a string or key, by what opens there. What is no string is taken for a word. Public for the crates above only: the part
// of a string or key holds its content.
#[tactic(auto, using(crate::proofs::OpeningLaws::head_within), unfolding(crate::specs::Opening::part_of, crate::specs::Opening::opened_part))]
pub fn part_of(sw: Switches, token: &[u8]) -> Part
    ensures { result ≡ part_of sw token.now }
{
    match opening_of(sw, token, 0) {
        Opening::String(head) => Part {
            is_text: head.is_text,
            body: head.body,
            span: Span {
                start: head.before,
                stop: token.len() - 1 - head.hashes,
            },
        },
        Opening::Broken | Opening::Nothing => word_part(token),
    }
}

// A word's part: all of it.
fn word_part(token: &[u8]) -> Part
    ensures { result ≡ word_part (length token.now) }
{
    Part {
        is_text: false,
        body: Body::Word,
        span: Span {
            start: 0,
            stop: token.len(),
        },
    }
}

// ---- kinds of tokens

// Whether a token may be a key: "any word of the shape, or a text string".
#[tactic(auto, unfolding(crate::specs::Internal::is_key))]
pub fn is_key(token: Token) -> bool
    ensures { result ≡ is_key token.kind }
{
    matches!(token.kind, TokenKind::Word | TokenKind::Text(_))
}

// Whether a token is a string or key: a word, a text or bytes.
#[tactic(auto, unfolding(crate::specs::Internal::holds_content))]
fn holds_content(token: Token) -> bool
    ensures { result ≡ holds_content token.kind }
{
    matches!(
        token.kind,
        TokenKind::Word | TokenKind::Text(_) | TokenKind::Bytes(_)
    )
}

// ---- contents

// Whether the bytes are one string or key. Public for the crates above only, which show so what `content_is` asks, and that a part holds the content.
#[tactic(auto, using(crate::proofs::PartLaws::keyed_first, crate::proofs::PartLaws::keyed_none))]
pub fn is_keyed(sw: Switches, token: &[u8]) -> bool
    ensures { result ≡ has_content (token_content sw token.now) }
{
    let Ok(Next::Token(next)) = next_token(sw, token, 0) else {
        return false;
    };
    next.span.start == 0 && next.span.stop == token.len() && holds_content(next)
}

// Writes the content of a string or key at the output's front, if the bytes are one and the output has room for it.
#[tactic(auto, using(crate::proofs::PartLaws::keyed_by, crate::proofs::PartLaws::part_is))]
pub fn put_token(sw: Switches, token: &[u8], out: &mut [u8]) -> Result<usize, ContentError>
    ensures { (result ≡ fitted (length out.old) (token_content sw token.now)) × (out.new ≡ placed (token_content sw token.now) out.old) }
{
    if !is_keyed(sw, token) {
        return Err(ContentError::NoContent);
    }
    let part = part_of(sw, token);
    write_content(
        sw,
        part.is_text,
        part.body,
        &token[part.span.start..part.span.stop],
        out,
    )
}

// Whether the content of a string or key is that of a body. Asked for every key of an object at each new one, whose body is known
// by then. Public for the crates above only, which show that it is one.
#[tactic(auto, using(crate::proofs::PartLaws::part_same))]
pub fn content_is(sw: Switches, token: &[u8], body: Body, s: &[u8]) -> bool
    requires { Keyed sw token.now }
    ensures { result ≡ same_content (token_content sw token.now) (content sw body s.now) }
{
    let part = part_of(sw, token);
    same_content(
        sw,
        part.body,
        &token[part.span.start..part.span.stop],
        body,
        s,
    )
}
