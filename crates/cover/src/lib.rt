// Demand 3: document 01's words, the statement and its proof. No code.

#![tactic(auto)]
