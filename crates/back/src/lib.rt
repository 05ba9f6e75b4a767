// What a caller reads back from the numbers of a piece and of an error record. Definitions and theorems, in specs/. No code.
#![tactic(auto)]
