// The abstract sheet: specs only. `specs/Sheet.antt` turns the bytes of a sheet into the records that document 01 speaks of,
// each where a look-up finds its number.

#![tactic(auto)]
