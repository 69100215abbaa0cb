// What becomes of an event line. In come the lent tables and the event; out goes its refusal, or what was looked up for it and the state that it leads to.
// Nothing is stored.
#![tactic(auto)]

pub mod cores;
pub mod known;
pub mod names;
pub mod numbers;
pub mod plan;
pub mod room;
