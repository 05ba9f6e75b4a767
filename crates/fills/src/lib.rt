// A text's pieces and error records, written straight into lent numbers: what the lane passes as soon as it is read, what it leaves as it is told, else from the plain step.
#![tactic(auto)]

pub mod lane; // lane.rt: steps told and written, one after another
pub mod run; // run.rt: a whole text
