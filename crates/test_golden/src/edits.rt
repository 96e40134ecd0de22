// Texts that differ from another in some places.
use crate::fault::RowFault;
use std::alloc::Global;

/// The text, with its first `<UNIT*TIMES>` written out.
fn repeated(alloc: Global, text: &str) -> Result<String, RowFault> {
    let Some((before, tail)) = text.split_once("<") else {
        return Ok(String::from_str(alloc, text)?);
    };
    let (unit, tail) = tail.split_once("*").ok_or(RowFault::Form)?;
    let (times, after) = tail.split_once(">").ok_or(RowFault::Form)?;
    let times = times.parse::<usize>().map_err(|_| RowFault::Form)?;
    let units = unit.repeat(alloc, times)?;
    Ok(format!(in alloc; "{before}{units}{after}")?)
}

/// The text with the first `OLD` of an edit `OLD => NEW` replaced.
fn replaced(alloc: Global, text: &str, edit: &str) -> Result<String, RowFault> {
    let (old, new) = edit.split_once(" => ").ok_or(RowFault::Form)?;
    let (before, after) = text.split_once(old).ok_or(RowFault::Edit)?;
    Ok(format!(in alloc; "{before}{new}{after}")?)
}

/// The text after edits `OLD => NEW`, with ` ; ` between two of them, in this order. Then its first two
/// `<UNIT*TIMES>` stand for so many units.
pub fn edited(alloc: Global, text: &str, edits: &str) -> Result<String, RowFault> {
    let mut found = String::from_str(alloc, text)?;
    for edit in edits.split(" ; ") {
        found = replaced(alloc, found.as_str(), edit)?;
    }
    found = repeated(alloc, found.as_str())?;
    repeated(alloc, found.as_str())
}
