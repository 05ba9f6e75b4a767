// What holds of every reading: facts alone, no functions.
#![tactic(auto)]
