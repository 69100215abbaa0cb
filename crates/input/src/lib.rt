// Standard input as one trace: in come its bytes, read to the end; out goes the text of it, at the front of a lent output.
#![tactic(auto)]

pub mod reads;
pub mod whole;
