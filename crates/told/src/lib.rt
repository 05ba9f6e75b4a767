// A placeholder of Format mode that is told, written straight into lent numbers, each part as soon as it is told.
#![tactic(auto)]

pub mod parts; // parts.rt: its parts, and where reading then stands
pub mod whole; // whole.rt: all of it, whatever is wrong in it
