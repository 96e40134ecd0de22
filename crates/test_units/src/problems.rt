// Small problems as text.

// One node without states and decisions, with one realization.
pub(crate) const BARE: &[u8] =
    b"{\"version\":{\"major\":1},\"root\":{\"state_variables\":{},\"successors\":{\"n\":1}},
\"nodes\":{\"n\":{\"subproblem\":\"s\"}},
\"subproblems\":{\"s\":{\"subproblem\":{\"variables\":[],\"objective\":{\"sense\":\"feasibility\"},\"constraints\":[]}}}}";

// One node without successors, with two realizations of weight 1 and two rows.
pub(crate) const TWO_ROWS: &[u8] =
    b"{\"version\":{\"major\":1},\"root\":{\"state_variables\":{},\"successors\":{\"n\":1}},
\"nodes\":{\"n\":{\"subproblem\":\"s\",\"realizations\":[{\"probability\":1,\"support\":{}},{\"probability\":1,\"support\":{}}]}},
\"subproblems\":{\"s\":{\"subproblem\":{\"variables\":[{\"name\":\"x\"}],\"objective\":{\"sense\":\"feasibility\"},\"constraints\":[
{\"function\":{\"type\":\"ScalarAffineFunction\",\"terms\":[{\"coefficient\":1,\"variable\":\"x\"}],\"constant\":0},
\"set\":{\"type\":\"GreaterThan\",\"lower\":1}},
{\"function\":{\"type\":\"ScalarAffineFunction\",\"terms\":[{\"coefficient\":1,\"variable\":\"x\"}],\"constant\":0},
\"set\":{\"type\":\"LessThan\",\"upper\":8}},
{\"function\":{\"type\":\"Variable\",\"name\":\"x\"},\"set\":{\"type\":\"Interval\",\"lower\":0,\"upper\":9}}]}}}}";

// One node without successors: the kept water, in [0, 20] at cost 3, is the water before, in [0, 10], and an inflow of 1.
pub(crate) const KEEPING: &[u8] =
    b"{\"version\":{\"major\":1},\"root\":{\"state_variables\":{\"volume\":4},\"successors\":{\"n\":1}},
\"nodes\":{\"n\":{\"subproblem\":\"s\",\"realizations\":[{\"probability\":1,\"support\":{\"inflow\":1}}]}},
\"subproblems\":{\"s\":{\"state_variables\":{\"volume\":{\"in\":\"before\",\"out\":\"kept\"}},\"random_variables\":[\"inflow\"],
\"subproblem\":{\"variables\":[{\"name\":\"before\"},{\"name\":\"kept\"},{\"name\":\"inflow\"}],
\"objective\":{\"sense\":\"min\",\"function\":{\"type\":\"ScalarAffineFunction\",
\"terms\":[{\"coefficient\":3,\"variable\":\"kept\"}],\"constant\":0}},\"constraints\":[
{\"function\":{\"type\":\"ScalarAffineFunction\",\"terms\":[{\"coefficient\":1,\"variable\":\"kept\"},
{\"coefficient\":-1,\"variable\":\"before\"},{\"coefficient\":-1,\"variable\":\"inflow\"}],\"constant\":0},
\"set\":{\"type\":\"EqualTo\",\"value\":0}},
{\"function\":{\"type\":\"Variable\",\"name\":\"before\"},\"set\":{\"type\":\"Interval\",\"lower\":0,\"upper\":10}},
{\"function\":{\"type\":\"Variable\",\"name\":\"kept\"},\"set\":{\"type\":\"Interval\",\"lower\":0,\"upper\":20}}]}}}}";
