// The editor: correction of one value, and undo, on lent buffers.
#![tactic(auto)]

pub mod buffers;
pub mod change;
pub mod edit;
pub mod journal;
pub mod trial;
