//! What a table says of its program: the variable that enters, the answer at the end, and duals that prove that no point keeps all rows.
#![tactic(auto)]

pub mod entering;
pub mod finishing;
pub mod found;
pub mod proving;
pub mod ray;
pub mod shifting;
mod whole;
pub mod wide;
