// The words of 000: types, events and time scales, read and written.
#![tactic(auto)]

pub mod action;
pub mod class;
pub mod code;
pub mod kind;
pub mod pair;
pub mod reading;
pub mod scale;
pub mod writing;
