// The rules of events, and what a whole trace comes to, by its lines alone: all of it is said in specs/, with its laws in proofs/, and there is no code. `steps` has
// the code of single rules, and the machine above it that of a trace.
#![tactic(auto)]

pub mod place;
