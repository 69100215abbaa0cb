// The sheets that a program's arguments name, added from the left. In come the files; out goes the text of the sum at the front of a lent output, or
// which sheet is refused, and then nothing is written.
#![tactic(auto)]

pub mod files;
pub mod total;
