// What stands where a child or the end of a container is due, and what follows a child.
ghost use Rattle.std.specs.Prelude.{◌≡◌, false, ◌&&◌, eqb, ◌≤◌, length};
ghost use Rattle.text.specs.Refusal.{refusal, told, told_by};
ghost use Rattle.reader.specs.Reading.{max_text};
ghost use Rattle.reader.specs.Syntax.{is_object, empty_by_comma};
ghost use Rattle.reader.specs.Internal.Ahead.{
  ahead_at,
  only_at,
  ahead_after,
  follows_at,
  mark_is,
  closer_byte,
};
ghost use Rattle.reader.specs.Internal.Values.{ItemAt, FieldAt, ChildAt};

use super::tree::Kind;
use lexer::item::{Next, Token, TokenKind, next_token};
use lexer::token::is_key;
use text::refusal::{Reason, Refusal};
use text::span::Span;
use text::switches::Switches;

// A child's first token with its key's span, the end of the container, or a refusal; or a refusal after a key, which stands only if the key
// is new.
#[derive(Clone, Copy)]
pub enum Item {
    Value { token: Token, key: Span },
    Last(usize),
    Refused(Refusal),
    RefusedAfter { key: Span, refusal: Refusal },
}

// After a child: the end of a comma, or the end of the container.
#[derive(Clone, Copy)]
pub enum After {
    More(usize),
    Over(usize),
}

// ---- tokens

fn is_mark(token: Token, b: u8) -> bool
    ensures { result ≡ mark_is token.kind b }
{
    let kind = token.kind;
    match kind {
        TokenKind::Mark(c) => c == b,
        TokenKind::Word => false,
        TokenKind::Text(_) => false,
        TokenKind::Bytes(_) => false,
        TokenKind::Integer(_) => false,
        TokenKind::Decimal {
            minus: _,
            m: _,
            p: _,
        } => false,
    }
}

// A token is not allowed where it stands.
fn unexpected(token: Token) -> Refusal
    ensures { told_by result ≡ refusal 7 token.span.start }
{
    Refusal {
        reason: Reason::Unexpected,
        place: token.span.start,
    }
}

// The next token; the text's end is refused with 7.
pub(crate) fn token_from(sw: Switches, text: &[u8], from: usize) -> Result<Token, Refusal>
    ensures { told result ≡ ahead_at sw text.now from }
{
    match next_token(sw, text, from) {
        Ok(Next::Token(token)) => Ok(token),
        Ok(Next::End(place)) => Err(Refusal {
            reason: Reason::Unexpected,
            place,
        }),
        Err(refusal) => Err(refusal),
    }
}

// The next token, which has to be this mark.
pub(crate) fn one_mark(sw: Switches, text: &[u8], from: usize, want: u8) -> Result<usize, Refusal>
    ensures { told result ≡ only_at sw text.now from want }
{
    let token = token_from(sw, text, from)?;
    if is_mark(token, want) {
        return Ok(token.span.stop);
    }
    Err(unexpected(token))
}

// The token after this mark, which has to come next.
pub(crate) fn token_after(
    sw: Switches,
    text: &[u8],
    from: usize,
    want: u8,
) -> Result<Token, Refusal>
    ensures { told result ≡ ahead_after sw text.now from want }
{
    let stop = one_mark(sw, text, from, want)?;
    token_from(sw, text, stop)
}

// ---- containers

fn closer_of(kind: Kind) -> u8
    ensures { result ≡ closer_byte kind }
{
    match kind {
        Kind::Object => b'}',
        Kind::Array => b']',
        Kind::Tuple => b')',
    }
}

// Whether a lone comma makes a container empty.
fn lone_comma(sw: Switches, kind: Kind) -> bool
    ensures { result ≡ empty_by_comma sw kind }
{
    match kind {
        Kind::Object => false,
        Kind::Array => sw.lone_comma,
        Kind::Tuple => true,
    }
}

// Whether a token, the comma of `[,`, makes the container empty.
fn opens_empty(sw: Switches, kind: Kind, count: usize, token: Token) -> bool
    ensures { result ≡ (eqb count 0 && (mark_is token.kind 44 && empty_by_comma sw kind)) }
{
    if count == 0 {
        if is_mark(token, b',') {
            return lone_comma(sw, kind);
        }
        return false;
    }
    false
}

// A child's first token, or the end, of an array or a tuple that has so many children.
fn next_element(sw: Switches, text: &[u8], kind: Kind, count: usize, from: usize) -> Item
    requires from_in_bounds { from ≤ length text.now }
    requires kind_value { is_object kind ≡ false }
    ensures { ItemAt sw text.now kind count from result }
{
    let closer = closer_of(kind);
    match token_from(sw, text, from) {
        Ok(token) => {
            if is_mark(token, closer) {
                return Item::Last(token.span.stop);
            }
            if opens_empty(sw, kind, count, token) {
                return match one_mark(sw, text, token.span.stop, closer) {
                    Ok(stop) => Item::Last(stop),
                    Err(refusal) => Item::Refused(refusal),
                };
            }
            Item::Value {
                token,
                key: Span { start: 0, stop: 0 },
            }
        }
        Err(refusal) => Item::Refused(refusal),
    }
}

// A key with its value's first token, or the end, of an object. Whether the key is new is not asked here.
fn next_field(sw: Switches, text: &[u8], from: usize) -> Item
    requires from_in_bounds { from ≤ length text.now }
    requires text_len_bound { length text.now ≤ max_text }
    ensures { FieldAt sw text.now from result }
{
    match token_from(sw, text, from) {
        Ok(token) => {
            if is_mark(token, b'}') {
                return Item::Last(token.span.stop);
            }
            if is_key(token) {
                let key = token.span;
                return match token_after(sw, text, key.stop, b':') {
                    Ok(first) => Item::Value { token: first, key },
                    Err(refusal) => Item::RefusedAfter { key, refusal },
                };
            }
            Item::Refused(unexpected(token))
        }
        Err(refusal) => Item::Refused(refusal),
    }
}

// A child's first token, or the end, of a container that has so many children.
fn next_item(sw: Switches, text: &[u8], kind: Kind, count: usize, from: usize) -> Item
    requires from_in_bounds { from ≤ length text.now }
    requires text_len_bound { length text.now ≤ max_text }
    ensures { ItemAt sw text.now kind count from result }
{
    match kind {
        Kind::Object => next_field(sw, text, from),
        Kind::Array => next_element(sw, text, kind, count, from),
        Kind::Tuple => next_element(sw, text, kind, count, from),
    }
}

// What follows a child.
fn after_item(sw: Switches, text: &[u8], kind: Kind, from: usize) -> Result<After, Refusal>
    ensures { told result ≡ follows_at sw text.now kind from }
{
    let closer = closer_of(kind);
    let token = token_from(sw, text, from)?;
    if is_mark(token, closer) {
        return Ok(After::Over(token.span.stop));
    }
    if is_mark(token, b',') {
        return Ok(After::More(token.span.stop));
    }
    Err(unexpected(token))
}

// A child's first token, or the end, of a container that has so many children, from where the last of them ends, or from the opening
// bracket if there is none.
#[inline(never)]
pub(crate) fn next_child(sw: Switches, text: &[u8], kind: Kind, count: usize, from: usize) -> Item
    requires from_in_bounds { from ≤ length text.now }
    requires text_len_bound { length text.now ≤ max_text }
    ensures { ChildAt sw text.now kind count from result }
{
    if count == 0 {
        return next_item(sw, text, kind, count, from);
    }
    match after_item(sw, text, kind, from) {
        Err(refusal) => Item::Refused(refusal),
        Ok(After::Over(end)) => Item::Last(end),
        Ok(After::More(comma)) => next_item(sw, text, kind, count, comma),
    }
}
