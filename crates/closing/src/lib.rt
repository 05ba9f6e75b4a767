// How a placeholder ends: at its closing brace, or without one, and what is then said and passed.
#![tactic(auto)]

pub mod recover; // recover.rt: what is said, and passed, where no closing brace stands
pub mod whole; // whole.rt: a placeholder from its opening brace
