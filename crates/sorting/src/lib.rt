// Names in the order of their bytes.
#![tactic(auto)]

pub mod order;
