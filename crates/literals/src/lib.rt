// What a token's bytes mean: numbers, the content of strings, the shape of words. Every function takes the slice that is to be
// judged and nothing else of the text, and is total on every slice.
#![tactic(auto)]

pub mod compare;
pub mod content;
pub mod copy;
pub mod decoder;
pub mod number;
pub mod word;
