//! A multistage problem that is checked: its parts and limits, its graph with the boxes of states, its refusals and formulas.
#![tactic(auto)]

pub mod arranging;
pub mod boxes;
pub mod distinct;
pub mod formulas;
pub mod hull;
pub mod incoming_boxes;
pub mod limits;
pub mod node_order;
pub mod parts;
pub mod refusal;
pub mod scenarios;
pub mod side;
pub mod validated;

pub use arranging::{ArrangeFault, arrange};
pub use boxes::{out_highs, out_lows};
pub use formulas::{TooMuch, total};
pub use limits::{
    GREATEST_NUMBER, GREATEST_TOTAL_WEIGHT, MOST_ALTERNATIVES, MOST_DECISIONS,
    MOST_GENERATED_RESERVOIRS, MOST_GENERATED_STAGES, MOST_ITERATIONS, MOST_NODES, MOST_PATHS,
    MOST_RANDOMS, MOST_REALIZATIONS, MOST_ROWS, MOST_SCENARIOS, MOST_SIMULATIONS, MOST_STATES,
    MOST_SUBPROBLEMS, NAME_BYTES, PAYLOAD_BYTES, PROBLEM_BYTES, parts_are_lawful,
};
pub use node_order::successors;
pub use parts::{Decision, Moment, Node, ProblemParts, Row, State, Subproblem};
pub use refusal::{Part, Place, Refusal, RefusalKind};
pub use validated::{Problem, SealFault};
