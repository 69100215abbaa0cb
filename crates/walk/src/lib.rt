// The lines of a chunk, one after another: in covered forms, and by a reader that holds the chunk and its place.
#![tactic(auto)]

pub mod lines;
pub mod reader;
