// The judge over lent tables. In come the tables and a line or a chunk; out go the number, and the tables after it.
#![tactic(auto)]

pub mod feed;
pub mod one_line;
