// For the test programs: in comes one input with many traces; each is judged as a whole, and its text printed.
#![tactic(auto)]

pub mod container;
pub mod say;
