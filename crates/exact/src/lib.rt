// Whole numbers in floats and exact placement: definitions and their laws. No code.

#![tactic(auto)]
