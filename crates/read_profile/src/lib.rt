//! What a problem file says: a document of nodes, stages and numbers, each by its name.
#![tactic(auto)]

pub mod worked;
