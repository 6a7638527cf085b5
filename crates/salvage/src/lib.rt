// Salvage of a broken line log: the lines that read by themselves, as one array.
#![tactic(auto)]

pub mod kept;
pub mod lines;
pub mod salvage;
