// Lines of cuts and bounds.
ghost use Rattle.std.specs.Prelude.{◌≡◌, ◌++◌, OnErr, OnOk};
ghost use Rattle.std.specs.Io.{StartsWith};
ghost use Rattle.std.specs.List.{flat_map};
ghost use Rattle.policy_report.specs.Report.{word, cut_words, cut_line, node_cuts, cut_lines, bound_line};

use base_num::{Memory, push_bytes, push_whole};
use cut_pool::{Cut, Pools};

/// Appends a space and the number, in decimal.
///
/// After `Memory` a first part of it may stand in `out`, behind what stood there before.
pub fn push_word(out: &mut Vec<u8>, number: i128) -> Result<(), Memory>
    ensures ok { OnOk result (out.new.items ≡ out.old.items ++ word number) }
    ensures err { OnErr result (StartsWith out.new.items out.old.items) }
{
    push_bytes(out, b" ")?;
    push_whole(out, number)
}

// Appends a space and the number, for each number.
fn push_words(out: &mut Vec<u8>, numbers: &[i128]) -> Result<(), Memory>
    ensures ok { OnOk result (out.new.items ≡ out.old.items ++ flat_map word numbers.now) }
    ensures err { OnErr result (StartsWith out.new.items out.old.items) }
{
    for number in numbers {
        push_word(out, *number)?;
    }
    Ok(())
}

fn push_cut(out: &mut Vec<u8>, node: usize, place: usize, cut: &Cut) -> Result<(), Memory>
    ensures { OnOk result (out.new.items ≡ out.old.items ++ cut_line node place cut.now) }
{
    push_bytes(out, b"cut")?;
    push_word(out, node as i128)?;
    push_word(out, place as i128)?;
    push_cut_words(out, cut)?;
    push_bytes(out, b"\n")
}

/// Appends the numbers of a cut, each behind a space and at scale 2^24: alpha, then a slope per state.
///
/// After `Memory` a first part of it may stand in `out`, behind what stood there before.
pub fn push_cut_words(out: &mut Vec<u8>, cut: &Cut) -> Result<(), Memory>
    ensures ok { OnOk result (out.new.items ≡ out.old.items ++ cut_words cut.now) }
    ensures err { OnErr result (StartsWith out.new.items out.old.items) }
{
    push_word(out, cut.alpha)?;
    push_words(out, cut.beta.as_slice())
}

fn push_node_cuts(out: &mut Vec<u8>, node: usize, cuts: &[Cut]) -> Result<(), Memory>
    ensures { OnOk result (out.new.items ≡ out.old.items ++ node_cuts node cuts.now) }
{
    for (place, cut) in cuts.iter().enumerate() {
        push_cut(out, node, place, cut)?;
    }
    Ok(())
}

/// Appends a line for each cut of each node.
pub(crate) fn push_cuts(out: &mut Vec<u8>, pools: &Pools) -> Result<(), Memory>
    ensures { OnOk result (out.new.items ≡ out.old.items ++ cut_lines pools.now.lists) }
{
    for node in 0..pools.nodes() {
        push_node_cuts(out, node, pools.cuts(node))?;
    }
    Ok(())
}

/// Appends the line of a bound, which is at scale 2^24.
///
/// After `Memory` a first part of it may stand in `out`, behind what stood there before.
pub fn push_bound(out: &mut Vec<u8>, bound: i128) -> Result<(), Memory>
    ensures ok { OnOk result (out.new.items ≡ out.old.items ++ bound_line bound) }
    ensures err { OnErr result (StartsWith out.new.items out.old.items) }
{
    push_bytes(out, b"bound")?;
    push_word(out, bound)?;
    push_bytes(out, b"\n")
}
