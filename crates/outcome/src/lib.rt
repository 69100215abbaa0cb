// The outcome of the lines taken. In come the tables, or a whole trace; out go the verdict if the trace ended now and, at the front of a lent output, the sheet: both from
// the same tables, and neither without the other.
#![tactic(auto)]

pub mod at_end;
pub mod figure;
pub mod now;
pub mod row;
pub mod section;
mod tested;
pub mod whole;
