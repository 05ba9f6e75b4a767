// One way to write a template: definitions, in specs/, and theorems, in proofs/. No code.
#![tactic(auto)]
