// The judge's whole state in three lent tables: names in bytes, numbers and states in u32, times and tick sums in u64. Here is where each entry lies; in come tables
// as they are, and out goes whether they have their sizes, or they are made fresh.
//
// They are lent side by side, and not as one struct of three references: tried in `judge`, each function that is lent it had to promise besides that it is the same memory afterwards, and to lend
// its fields anew.
#![tactic(auto)]

pub mod entry;
pub mod fresh;
pub mod size;
