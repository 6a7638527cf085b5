// The text cut into tokens: what opens a string and where one ends, what stands at a place, the next token from a place, and a token
// by itself.
#![tactic(auto)]

pub mod closing;
pub mod item;
pub mod opening;
pub mod runs;
mod scanner;
pub mod token;
