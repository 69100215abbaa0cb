// The rules in code, over plain numbers and what was read of a line. In come a type, an event word and a state, or a line's reading and its place; out go the
// state that the chart leads to, what the event does to a core, and the lowest of 1 to 7 that applies. What is right is said in `rules`.
#![tactic(auto)]

pub mod chart;
pub mod kind;
pub mod lines;
pub mod numbers;
pub mod place;
