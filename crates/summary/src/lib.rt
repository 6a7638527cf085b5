// The season's summary of a text: how many heights are measured, null, absent and unfit, and of the measured ones the least, the greatest
// and the mean.
#![tactic(auto)]

pub mod heights;
pub mod records;
pub mod summary;
pub mod tally;
