//! The cost of the whole policy, exactly and from above.
#![tactic(auto)]

mod branch_counts;
mod branches;
mod capped;
mod costs;
mod denominators;
mod formulas;
pub mod laws;
mod multiples;
mod report;
mod stage_sizes;
mod table_sums;
mod tree;
mod tree_numbers;
mod verdict;
mod walking;
pub mod worked;

pub use formulas::too_big;
pub use report::verdict_report;
pub use verdict::evaluate;
pub use walking::Verdict;
