// The bill. In comes what a trace came to, as values: a verdict, and a sheet's rows. Out goes the text that is printed of them.
#![tactic(auto)]

pub mod figure;
pub mod scale;
pub mod section;
pub mod verdict;
