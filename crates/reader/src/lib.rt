// The public call: a text is read into lists that the caller lends.
#![tactic(auto)]

pub mod lists; // lists.rt: a record added to a lent list, and a list filled
pub mod call; // call.rt: the call
