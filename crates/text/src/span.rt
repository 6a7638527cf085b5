// Spans: bytes that stand side by side.

// The bytes from `start` to before `stop`.
#[derive(Clone, Copy)]
pub struct Span {
    pub start: usize,
    pub stop: usize,
}

// The bytes that a text may have.
pub const MAX_TEXT: usize = 65536;
