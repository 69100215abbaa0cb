// One line of a Best Trace Format 2.2.0 trace, read and written.
#![tactic(auto)]

pub mod event;
pub mod parameter;
pub mod reading;
pub mod writing;

pub use fields::field;
pub use reading::{read, read_next, read_split};
pub use writing::write;
