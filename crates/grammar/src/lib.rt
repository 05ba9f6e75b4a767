// The grammar of document 01 and the page of demand 3: definitions and worked cases, in specs/. No code.
#![tactic(auto)]
