// How many moves a reading takes at most: the bound, in specs/. No code.
#![tactic(auto)]
