// The reader: from a text to a flat table of nodes, and the content call.
#![tactic(auto)]

pub mod begin;
pub mod content;
pub mod duplicates;
pub mod index;
pub mod items;
pub mod keys;
pub mod kinds;
pub mod late;
pub mod read;
pub mod rows;
pub mod siblings;
pub mod tree;
pub mod values;
