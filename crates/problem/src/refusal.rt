// Refusals of a problem: the kind of fault and its place.
ghost use Rattle.std.specs.Prelude.{◌≡◌};

/// A kind of fault.
#[derive(Clone, Copy, Debug, PartialEq, Eq)]
pub enum RefusalKind {
    /// The bytes spell no JSON value, or one of more than 127 levels.
    NotJson,
    /// The major version is not 1.
    Version,
    /// A part is absent, or of another JSON type than it has to be.
    Shape,
    /// A number is given as neither an i64 nor a u64.
    NotWhole,
    /// A sense or a set is of a type that is not read.
    Unsupported,
    /// A variable is named twice, or used for two states or random variables.
    Duplicate,
    /// A name names nothing.
    UnknownName,
    /// A weight is below 1, a stop weight is below 0, or a total of weights is above 65,535.
    Weight,
    /// A decision has no lower or no upper bound.
    Unbounded,
    /// A lower bound is above the upper one.
    EmptyBox,
    /// The states of a subproblem are not those of the root.
    States,
    /// A stored scenario is empty, or a step does not follow the one before.
    Scenario,
    /// A number is above 2^40 in absolute value, a name has more than 128 bytes, or a count passes its limit.
    TooLarge,
    /// A node can reach itself.
    Cycle,
    /// The root does not reach a node.
    Unreachable,
    /// A given bound of an incoming state does not enclose the states that may come in.
    BoxGap,
    /// The size of a base cut is above 2^127 - 1.
    Range,
}

/// A part of a problem, and what the numbers `a`, `b` and `c` of a [`Place`] say there; those not named are 0.
/// All count from 0.
#[derive(Clone, Copy, Debug, PartialEq, Eq)]
pub enum Part {
    /// The problem as a whole.
    Whole,
    /// `a` is 0 for the root as a whole, 1 for its states and 2 for its successors; `b` is the member.
    Root,
    /// Subproblem `a`.
    Subproblem,
    /// Variable `b` of subproblem `a`.
    Variable,
    /// State `b` in subproblem `a`.
    State,
    /// Random variable `b` of subproblem `a`.
    Random,
    /// The objective of subproblem `a`; `b` is 0 for all of it, and t + 1 for its term t.
    Objective,
    /// Constraint `b` of subproblem `a`; `c` is 0 for its function or set as a whole, and t + 1 for term t.
    Constraint,
    /// Node `a`, and state `b` where the place is a state's.
    Node,
    /// Realization `b` of node `a`.
    Realization,
    /// Random variable `c` in realization `b` of node `a`.
    Support,
    /// Successor `b` of node `a`.
    Successor,
    /// Stored scenario `a`.
    Scenario,
    /// Step `b` of stored scenario `a`, and random variable `c` where the place is a value's.
    Step,
    /// Realization `c` in alternative `b` of node `a`.
    Alternative,
}

/// A place in a problem: a part and three numbers, which [`Part`] explains.
#[derive(Clone, Copy, Debug, PartialEq, Eq)]
pub struct Place {
    /// The part of the problem.
    pub part: Part,
    /// The first number.
    pub a: u32,
    /// The second number.
    pub b: u32,
    /// The third number.
    pub c: u32,
}

/// The first fault of a problem, and its place.
#[derive(Clone, Copy, Debug, PartialEq, Eq)]
pub struct Refusal {
    /// The kind of fault.
    pub kind: RefusalKind,
    /// The place of the fault.
    pub place: Place,
}

impl RefusalKind {
    /// The refusal of this kind at a place.
    pub fn at(self, place: Place) -> Refusal
        ensures { result ≡ record { kind = self; place = place } }
    {
        Refusal { kind: self, place }
    }
}

impl Place {
    /// The place of the problem as a whole.
    pub const WHOLE: Place = Place {
        part: Part::Whole,
        a: 0,
        b: 0,
        c: 0,
    };

    /// The place with a part and three numbers.
    pub fn new(part: Part, a: u32, b: u32, c: u32) -> Place
        ensures { result ≡ record { part = part; a = a; b = b; c = c } }
    {
        Place { part, a, b, c }
    }
}
