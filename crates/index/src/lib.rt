// The index of the names (02, No. 11): where a name is looked for first, and the laws of an index into which the rows are put one after another. In comes a name, out goes its place.
#![tactic(auto)]

pub mod hash;
