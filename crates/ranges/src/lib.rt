// 15 and 16: in come three lent tables as they are; out goes whether they have their sizes and every entry is in its range.
#![tactic(auto)]

mod placed;
pub mod range;
pub mod state;
