// Looking up. In come the lent tables and a name, an instance or an event line's values; out go the rows where they stand, and whether the line adds one. Nothing is
// decided and nothing stored.
#![tactic(auto)]

pub mod find;
pub mod look;
mod row;
