// A trace chunk by chunk, and what is printed of it. In come the tables and bytes as they were read; out go the tables after them, and the text.
#![tactic(auto)]

pub mod chunk;
pub mod report;
