// No code. The charge sheet that lent tables show, by their entries: all of it is said in specs/, with its laws in proofs/. `outcome` writes it.
#![tactic(auto)]
