// One line of a printed sheet read: its words and figures, the verdict's line, a title with its count, and a row of either section.
#![tactic(auto)]

pub mod head;
pub mod line;
pub mod row;
