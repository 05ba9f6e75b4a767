// Demand 3 of the public call: from an answer and lists that its contract allows. Definitions and theorems, in specs/. No code.
#![tactic(auto)]
