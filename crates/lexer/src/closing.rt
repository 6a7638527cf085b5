// Where a string token and a block comment end.
ghost use Rattle.std.specs.Prelude.{◌≡◌, ℕ, ◌<◌, ◌+◌, not, ◌||◌, eqb, length, drop, ◌≤◌};
ghost use Rattle.text.specs.Bytes.{front};
ghost use Rattle.lexer.specs.Closing.{after_quote, after_other, closing_step, closing, block_step, block};
ghost use Rattle.lexer.specs.Internal.{closing_read, closed_at, block_read, shut_at};

use text::runs::front;

// After the opening quote. Inside(n), Escaped(n), Hashes(j, n): n bytes and no end yet; Escaped after a backslash that takes the
// next byte with it; Hashes after a quote and j hashes. Closed(n): the string ended with the n-th byte.
#[derive(Clone, Copy)]
pub enum Closing {
    Inside(usize),
    Escaped(usize),
    Hashes(usize, usize),
    Closed(usize),
}

// After `/*`. Inside(n), Starred(n): n bytes and no end yet, the last of them no star, or a star. Closed(n): the n-th byte ended it.
#[derive(Clone, Copy)]
pub enum Block {
    Inside(usize),
    Starred(usize),
    Closed(usize),
}

// A quote and `seen` hashes have been read.
#[tactic(auto, unfolding(crate::specs::Closing::after_quote))]
fn after_quote(hashes: usize, seen: usize, read: usize) -> Closing
    ensures { result ≡ after_quote hashes seen read }
{
    if seen == hashes {
        Closing::Closed(read)
    } else {
        Closing::Hashes(seen, read)
    }
}

// A byte that goes on with no begun closing.
#[tactic(auto, unfolding(crate::specs::Closing::after_other))]
fn after_other(escapes: bool, hashes: usize, read: usize, b: u8) -> Closing
    requires { read < 18446744073709551615 }
    ensures { result ≡ after_other escapes hashes read b }
{
    match b {
        b'"' => after_quote(hashes, 0, read + 1),
        b'\\' if escapes => Closing::Escaped(read + 1),
        _ => Closing::Inside(read + 1),
    }
}

#[tactic(auto, unfolding(crate::specs::Closing::closing_step, crate::specs::Internal::closing_read))]
fn closing_step(escapes: bool, hashes: usize, state: Closing, b: u8) -> Closing
    requires { closing_read state < 18446744073709551615 }
    ensures { result ≡ closing_step escapes hashes state b }
{
    match state {
        Closing::Inside(read) => after_other(escapes, hashes, read, b),
        Closing::Escaped(read) => Closing::Inside(read + 1),
        Closing::Hashes(seen, read) if b == b'#' => after_quote(hashes, seen + 1, read + 1),
        Closing::Hashes(_, read) => after_other(escapes, hashes, read, b),
        Closing::Closed(_) => state,
    }
}

// The first place at or after `from` whose byte is a quote or a backslash, or the text's end. What stands before it only counts.
fn plain_end(text: &[u8], from: usize) -> usize
    requires { from ≤ length text.now }
    ensures { result ≡ from + front (λ (b : ℕ). not (eqb b 0x22 || eqb b 0x5C)) (drop from text.now) }
{
    from + front(&text[from..], |b| b != b'"' && b != b'\\')
}

// kept: a while, as `i` also goes over the bytes that `plain_end` passes.
// How many bytes after `from` the string ends whose opening quote stands before `from`, with this many hashes before the quote; none
// if it does not end. The machine is fed the bytes that may change its state; the others are passed over by `plain_end`.
pub(crate) fn find_closing(text: &[u8], from: usize, escapes: bool, hashes: usize) -> Option<usize>
    requires { from ≤ length text.now }
    ensures { result ≡ closed_at (closing escapes hashes (drop from text.now)) }
{
    let mut i = plain_end(text, from);
    let mut state = Closing::Inside(i - from);
    while i < text.len() {
        state = closing_step(escapes, hashes, state, text[i]);
        i += 1;
        match state {
            Closing::Closed(n) => return Some(n),
            Closing::Inside(read) => {
                let next = plain_end(text, i);
                state = Closing::Inside(read + (next - i));
                i = next;
            }
            _ => {}
        }
    }
    None
}

#[tactic(auto, unfolding(crate::specs::Closing::block_step, crate::specs::Internal::block_read))]
fn block_step(state: Block, b: u8) -> Block
    requires { block_read state < 18446744073709551615 }
    ensures { result ≡ block_step state b }
{
    match state {
        Block::Inside(read) if b == b'*' => Block::Starred(read + 1),
        Block::Inside(read) => Block::Inside(read + 1),
        Block::Starred(read) if b == b'/' => Block::Closed(read + 1),
        Block::Starred(read) if b == b'*' => Block::Starred(read + 1),
        Block::Starred(read) => Block::Inside(read + 1),
        Block::Closed(_) => state,
    }
}

// How many bytes after `from` the comment ends whose `/*` stands before `from`; none if it does not end.
pub(crate) fn find_block(text: &[u8], from: usize) -> Option<usize>
    requires { from ≤ length text.now }
    ensures { result ≡ shut_at (block (drop from text.now)) }
{
    let mut state = Block::Inside(0);
    for b in &text[from..] {
        state = block_step(state, *b);
        if let Block::Closed(n) = state {
            return Some(n);
        }
    }
    None
}
