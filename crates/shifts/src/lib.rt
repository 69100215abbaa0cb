// Bills of several shifts added up: definitions and laws, no code.
#![tactic(auto)]
