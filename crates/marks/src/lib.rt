// Many answers to a question of yes or no in one number, the first as its lowest digit: where the first yes stands, and the answers without it.
#![tactic(auto)]

pub mod two;
