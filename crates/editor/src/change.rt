// What a correction and an undo answer.
use text::refusal::Refusal;

// The lengths in use of the text and of the journal.
#[derive(Clone, Copy)]
pub struct InUse {
    pub text: usize,
    pub journal: usize,
}

// Whether it was done or refused, the node count of the text as it then stands, and the lengths in use.
#[derive(Clone, Copy)]
pub struct Change {
    pub verdict: Result<(), Refusal>,
    pub nodes: usize,
    pub used: InUse,
}
