// Demand 3 is met by every reading: theorems and the device of their proof, in specs/. No code.
#![tactic(auto)]
