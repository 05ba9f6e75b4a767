// The plain form of a text, laid into a lent buffer piece by piece.
#![tactic(auto)]

pub mod parts; // parts.rt: the parts of a piece
pub mod run; // run.rt: a whole text
