// Document 02, paper 8: the proxies that did not fit, and how long a tape can be: statements and their proofs. No code.

#![tactic(auto)]
