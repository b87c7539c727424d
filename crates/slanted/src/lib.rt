// Document 02, paper 14, slanted sheets: the statement and its proof. No code.

#![tactic(auto)]
