// What the reader's functions hand each other.
use super::kinds::NodeKind;
use text::switches::Switches;

// The containers.
#[derive(Clone, Copy)]
pub enum Kind {
    Object,
    Array,
    Tuple,
}

// The most containers that may be open at once, and the most nodes that a text may have.
pub const MAX_DEPTH: usize = 32;

pub const MAX_NODES: usize = 4096;

// How many containers may be open at once, and how many nodes a text may have.
#[derive(Clone, Copy)]
pub struct Limits {
    pub depth: usize,
    pub nodes: usize,
}

// What a text is read by: the switches of its edition, and the limits.
#[derive(Clone, Copy)]
pub struct Rules {
    pub sw: Switches,
    pub limits: Limits,
}

// A span as words of a row; 0, 0 if there is none.
#[derive(Clone, Copy)]
pub struct SpanWords {
    pub start: u32,
    pub stop: u32,
}

// What is known of a value that has begun, as words of its row: its start, and the spans of its key and of its identifier's name. Words are
// half as wide as places, and a label waits on the stack until its value ends.
#[derive(Clone, Copy)]
pub struct Label {
    pub start: u32,
    pub key: SpanWords,
    pub name: SpanWords,
}

// Where a value stands in the tree: its node, how many containers are open around it, and the word for its parent.
#[derive(Clone, Copy)]
pub struct Spot {
    pub node: usize,
    pub depth: usize,
    pub parent: u32,
}

// A value that is due. `any`: of every kind, or else a container only. `fresh`: not in an identifier's bracket, so that its node has
// not been counted and it may have an identifier.
#[derive(Clone, Copy)]
pub struct Due {
    pub any: bool,
    pub fresh: bool,
    pub label: Label,
    pub spot: Spot,
}

// The whole children of a container: how many, and their nodes with all below them, from `first` to before `next`.
#[derive(Clone, Copy)]
pub struct Children {
    pub first: usize,
    pub next: usize,
    pub count: usize,
}

// The words of a node that say its value: 0 and 9 to 11.
#[derive(Clone, Copy)]
pub struct Words {
    pub kind: NodeKind,
    pub low: u32,
    pub high: u32,
    pub extra: u32,
}

// What a token begins.
#[derive(Clone, Copy)]
pub enum Begin {
    Container(Kind),
    Scalar(Words),
    Identifier,
}
