// Bytes and their classes, bytes put into buffers, a few bytes by value, spans, refusals, UTF-8, and the switches in which the editions of Duper differ.
#![tactic(auto)]

pub mod buffers;
pub mod bytes;
pub mod few;
pub mod refusal;
pub mod runs;
pub mod span;
pub mod switches;
pub mod utf8;
