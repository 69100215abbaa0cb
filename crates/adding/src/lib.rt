// Printed sheets added. In come two texts; out goes the text of their sum at the front of a lent output, or a refusal, and then nothing is written.
#![tactic(auto)]

pub mod add;
pub mod apart;
pub mod form;
pub mod merge;
pub mod places;
pub mod put;
pub mod refusal;
pub mod rows;
pub mod sections;
pub mod sheet;
pub mod sort;
pub mod sound;
pub mod whole;
