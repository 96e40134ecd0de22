// The parts of a problem as they are read. All numbers are whole, in the units of the problem file.
use base_num::{List, Name};

/// A state, as a reservoir's volume, with its value before the first stage.
#[derive(Drop)]
pub struct State {
    /// At most 128 bytes in a validated problem.
    pub name: Name,
    /// The value before the first stage, in the state's units.
    pub initial: i64,
}

/// A decision with its box and its cost for each unit.
#[derive(Drop)]
pub struct Decision {
    /// At most 128 bytes in a validated problem, and no other decision or random variable of the subproblem has it.
    pub name: Name,
    /// The least value.
    pub low: i64,
    /// The greatest value.
    pub high: i64,
    /// The cost for each unit of the decision.
    pub cost: i64,
}

/// A row `low <= decisions + states + randoms <= high`, where either side may be absent.
///
/// A term is a number and a factor; the terms rise in their numbers and no factor is 0.
#[derive(Drop)]
pub struct Row {
    /// The lower side.
    pub low: Option<i64>,
    /// The upper side.
    pub high: Option<i64>,
    /// Terms over the subproblem's decisions.
    pub decisions: List<(u32, i64)>,
    /// Terms over the incoming states.
    pub states: List<(u32, i64)>,
    /// Terms over the subproblem's random variables.
    pub randoms: List<(u32, i64)>,
}

/// A stage's decisions, costs and rows.
#[derive(Drop)]
pub struct Subproblem {
    /// In the order of the file.
    pub decisions: List<Decision>,
    /// One decision per state, each another one: the one that is the outgoing state.
    pub outs: List<u32>,
    /// The names of the random variables, in the order of the file, of at most 128 bytes each in a validated problem.
    pub randoms: List<Name>,
    /// In the order of the file.
    pub rows: List<Row>,
    /// The constant cost of a stage.
    pub constant: i64,
    /// One cost per incoming state.
    pub state_costs: List<i64>,
    /// One cost per random variable.
    pub random_costs: List<i64>,
    /// The given lower bounds, one entry per incoming state.
    pub low: List<Option<i64>>,
    /// The given upper bounds, one entry per incoming state, none below the lower bound beside it.
    pub high: List<Option<i64>>,
}

/// A node of the policy graph with its realizations and successors.
#[derive(Drop)]
pub struct Node {
    /// At most 128 bytes in a validated problem.
    pub name: Name,
    /// The number of its subproblem.
    pub sub: u32,
    /// One weight per realization, each at least 1.
    pub weights: List<u32>,
    /// One list per realization, with one value per random variable.
    pub values: List<List<i64>>,
    /// The successors' numbers, which rise.
    pub successors: List<u32>,
    /// One weight per successor, each at least 1.
    pub successor_weights: List<u32>,
    /// The weight with which the horizon ends here; it counts beside the successors' weights.
    pub stop: u32,
}

/// A step of a stored scenario.
#[derive(Drop)]
pub struct Moment {
    /// The number of its node.
    pub node: u32,
    /// One value per random variable of the node's subproblem.
    pub values: List<i64>,
}

/// All parts of a problem. States, subproblems and nodes stand in the byte order of their names.
#[derive(Drop)]
pub struct ProblemParts {
    /// In the byte order of their names.
    pub states: List<State>,
    /// The numbers of the root's successors, which rise.
    pub root: List<u32>,
    /// One weight per successor of the root, each at least 1.
    pub root_weights: List<u32>,
    /// In the byte order of their names.
    pub nodes: List<Node>,
    /// In the byte order of their names.
    pub subs: List<Subproblem>,
    /// The stored scenarios, one list of steps per scenario: a path from the root along successors.
    pub scenarios: List<List<Moment>>,
}
