// Paths, square sheets and true boxes: definitions and their laws. No code.

#![tactic(auto)]
