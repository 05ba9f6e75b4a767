// Where an editor scrolls for an error: the law, in specs/. No code.
#![tactic(auto)]
