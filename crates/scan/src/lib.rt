// The next line of a chunk with the places of its commas: 128 bytes are looked at together where a line ends among them, and else each by itself.
#![tactic(auto)]

pub mod ahead;
mod quick;
pub mod reader;
mod window;
