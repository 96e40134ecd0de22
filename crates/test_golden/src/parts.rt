// The parts of a problem, written out.
use crate::fault::RowFault;
use problem::{Moment, Node, Problem, ProblemParts, Row, Subproblem};
use read_file::read_problem;
use std::alloc::{AllocError, Global};
use std::fmt::Write;

fn push_rows(text: &mut String, rows: &[Row]) -> Result<(), AllocError> {
    for row in rows {
        let (decisions, states) = (row.decisions.as_slice(), row.states.as_slice());
        write!(text, "row {:?} {:?} ", row.low, row.high)?;
        writeln!(
            text,
            "{decisions:?} {states:?} {:?}",
            row.randoms.as_slice()
        )?;
    }
    Ok(())
}

fn push_decisions(text: &mut String, subproblem: &Subproblem) -> Result<(), AllocError> {
    for decision in subproblem.decisions.as_slice() {
        write!(text, "decision {} ", decision.name.as_str())?;
        writeln!(text, "{} {} {}", decision.low, decision.high, decision.cost)?;
    }
    Ok(())
}

fn push_randoms(text: &mut String, subproblem: &Subproblem) -> Result<(), AllocError> {
    for name in subproblem.randoms.as_slice() {
        writeln!(text, "random {}", name.as_str())?;
    }
    Ok(())
}

fn push_subproblem(text: &mut String, subproblem: &Subproblem) -> Result<(), AllocError> {
    writeln!(text, "subproblem {}", subproblem.constant)?;
    push_decisions(text, subproblem)?;
    push_randoms(text, subproblem)?;
    push_rows(text, subproblem.rows.as_slice())?;
    writeln!(text, "outgoing {:?}", subproblem.outs.as_slice())?;
    writeln!(text, "state costs {:?}", subproblem.state_costs.as_slice())?;
    writeln!(
        text,
        "random costs {:?}",
        subproblem.random_costs.as_slice()
    )?;
    writeln!(text, "low {:?}", subproblem.low.as_slice())?;
    writeln!(text, "high {:?}", subproblem.high.as_slice())
}

fn push_subproblems(text: &mut String, parts: &ProblemParts) -> Result<(), AllocError> {
    for subproblem in parts.subs.as_slice() {
        push_subproblem(text, subproblem)?;
    }
    Ok(())
}

fn push_values(text: &mut String, node: &Node) -> Result<(), AllocError> {
    for values in node.values.as_slice() {
        writeln!(text, "values {:?}", values.as_slice())?;
    }
    Ok(())
}

fn push_node(text: &mut String, node: &Node) -> Result<(), AllocError> {
    let (successors, weights) = (
        node.successors.as_slice(),
        node.successor_weights.as_slice(),
    );
    write!(text, "node {} {} ", node.name.as_str(), node.sub)?;
    write!(text, "{:?} ", node.weights.as_slice())?;
    writeln!(text, "{successors:?} {weights:?} {}", node.stop)?;
    push_values(text, node)
}

fn push_nodes(text: &mut String, parts: &ProblemParts) -> Result<(), AllocError> {
    for node in parts.nodes.as_slice() {
        push_node(text, node)?;
    }
    Ok(())
}

fn push_states(text: &mut String, parts: &ProblemParts) -> Result<(), AllocError> {
    for state in parts.states.as_slice() {
        writeln!(text, "state {} {}", state.name.as_str(), state.initial)?;
    }
    Ok(())
}

fn push_scenario(text: &mut String, steps: &[Moment]) -> Result<(), AllocError> {
    writeln!(text, "scenario")?;
    for step in steps {
        writeln!(text, "step {} {:?}", step.node, step.values.as_slice())?;
    }
    Ok(())
}

fn push_scenarios(text: &mut String, parts: &ProblemParts) -> Result<(), AllocError> {
    for scenario in parts.scenarios.as_slice() {
        push_scenario(text, scenario.as_slice())?;
    }
    Ok(())
}

fn push_boxes(text: &mut String, problem: &Problem) -> Result<(), AllocError> {
    for node in problem.order() {
        if (*node as usize) < problem.parts().nodes.len() {
            let (low, high) = (problem.lo(*node), problem.hi(*node));
            writeln!(
                text,
                "box of {node} {low:?} {high:?}, leaving {}",
                problem.q(*node)
            )?;
        }
    }
    Ok(())
}

fn push_parts(text: &mut String, parts: &ProblemParts) -> Result<(), AllocError> {
    push_states(text, parts)?;
    writeln!(
        text,
        "root {:?} {:?}",
        parts.root.as_slice(),
        parts.root_weights.as_slice()
    )?;
    push_subproblems(text, parts)?;
    push_nodes(text, parts)?;
    push_scenarios(text, parts)
}

/// Appends all parts of a problem, then its longest path, and the box of each node in order.
fn push_problem(text: &mut String, problem: &Problem) -> Result<(), AllocError> {
    push_parts(text, problem.parts())?;
    writeln!(text, "longest {}", problem.longest())?;
    push_boxes(text, problem)
}

/// Writes all parts of the problem of a file, then its longest path, and the box of each node in order.
pub fn parts(alloc: Global, file: &str) -> Result<String, RowFault> {
    let problem = read_problem(alloc, file.as_bytes())?;
    let mut text = String::new(alloc);
    push_problem(&mut text, &problem)?;
    Ok(text)
}
