// No code. What the machine's answers mean for a trace, by its lines alone: the three demands (proofs/Demand1, Demand2, Demand3), and the laws behind them.
#![tactic(auto)]
