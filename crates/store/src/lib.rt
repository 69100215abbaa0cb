// What taking an event line stores. In come the lent tables, the event and what was decided; out go the tables after it. Nothing is decided.
#![tactic(auto)]

pub mod entries;
pub mod instances;
pub mod nums;
pub mod places;
pub mod rows;
pub mod take;
pub mod ticks;
