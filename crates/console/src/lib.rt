// What the programs have in common: how a text's bytes come in, and the lines that go out; and a refusal in words, for
// `summarize` and `salvage_log`.
#![tactic(auto)]

pub mod input;
pub mod lines;
pub mod words;
