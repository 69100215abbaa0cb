// The parts of a line that commas separate, and where they stand.
#![tactic(auto)]

pub mod part;

pub use part::{between, field, split};
