// The closer forms of a line's parts. In come bytes, or the values that were read of an event line; out goes whether they are a creation date's moment, what a
// note means at its type, and whether an event has a source, an instance or a note that it may not have.
#![tactic(auto)]

pub mod date;
pub mod note;
pub mod rule;
