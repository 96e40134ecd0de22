// The head of every report.
ghost use Rattle.std.specs.Prelude.{◌≡◌, ◌++◌, OnErr, OnOk};
ghost use Rattle.std.specs.Io.{StartsWith};
ghost use Rattle.policy_report.specs.Lines.{numbered};
ghost use Rattle.policy_report.specs.Report.{title, state_line, node_line, head_text};

use base_num::{List, Memory, push_bytes, push_name, push_whole};
use problem::{Node, ProblemParts, State};

/// Appends the head of every report: the version, the scale of cuts and bounds, and a line for each state and each node with
/// its number, from 0 on, and its name as a JSON string.
///
/// After `Memory` a first part of it may stand in `out`, behind what stood there before.
#[tactic(auto, unfolding(crate::specs::Report::head_text))]
pub fn push_head(out: &mut Vec<u8>, parts: &ProblemParts) -> Result<(), Memory>
    ensures ok { OnOk result (out.new.items ≡ out.old.items ++ head_text parts.now) }
    ensures err { OnErr result (StartsWith out.new.items out.old.items) }
{
    push_title(out)?;
    push_states(out, &parts.states)?;
    push_nodes(out, &parts.nodes)
}

#[tactic(auto, unfolding(crate::specs::Report::title))]
fn push_title(out: &mut Vec<u8>) -> Result<(), Memory>
    ensures ok { OnOk result (out.new.items ≡ out.old.items ++ title) }
    ensures err { OnErr result (StartsWith out.new.items out.old.items) }
{
    push_bytes(out, b"hydroplan 1\nscale 16777216\n")
}

fn push_states(out: &mut Vec<u8>, states: &List<State>) -> Result<(), Memory>
    ensures ok { OnOk result (out.new.items ≡ out.old.items ++ numbered state_line 0 states.now) }
    ensures err { OnErr result (StartsWith out.new.items out.old.items) }
{
    for (i, state) in states.as_slice().iter().enumerate() {
        push_state(out, i, state)?;
    }
    Ok(())
}

fn push_nodes(out: &mut Vec<u8>, nodes: &List<Node>) -> Result<(), Memory>
    ensures ok { OnOk result (out.new.items ≡ out.old.items ++ numbered node_line 0 nodes.now) }
    ensures err { OnErr result (StartsWith out.new.items out.old.items) }
{
    for (i, node) in nodes.as_slice().iter().enumerate() {
        push_node(out, i, node)?;
    }
    Ok(())
}

fn push_state(out: &mut Vec<u8>, i: usize, state: &State) -> Result<(), Memory>
    ensures ok { OnOk result (out.new.items ≡ out.old.items ++ state_line i state.now) }
    ensures err { OnErr result (StartsWith out.new.items out.old.items) }
{
    push_bytes(out, b"state ")?;
    push_whole(out, i as i128)?;
    push_bytes(out, b" ")?;
    push_name(out, state.name.as_str())?;
    push_bytes(out, b"\n")
}

fn push_node(out: &mut Vec<u8>, i: usize, node: &Node) -> Result<(), Memory>
    ensures ok { OnOk result (out.new.items ≡ out.old.items ++ node_line i node.now) }
    ensures err { OnErr result (StartsWith out.new.items out.old.items) }
{
    push_bytes(out, b"node ")?;
    push_whole(out, i as i128)?;
    push_bytes(out, b" ")?;
    push_name(out, node.name.as_str())?;
    push_bytes(out, b"\n")
}
