//! Read accepts the text that is made from a hydro description, and gives the problem that the description means.
#![tactic(auto)]

pub mod laws;
