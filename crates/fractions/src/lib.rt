// Fractions over a power of two, exact placement on them, and how far rounded placement lies from it: definitions and their laws. No code.

#![tactic(auto)]
