// Numbers, sides and terms as a file writes them.
use crate::fault::RowFault;
use lp_program::Fx;
use lp_program::fixed::ONE;

/// A number of F, as `-5`, or what stands for itself, as `1431655765parts`.
pub fn number(word: &str) -> Result<Fx, RowFault> {
    let (digits, unit) = match word.split_once("raw") {
        Some((digits, "")) => (digits, 1),
        _ => (word, ONE),
    };
    let units = digits.parse::<i128>().map_err(|_| RowFault::Form)?;
    Ok(Fx(units.checked_mul(unit).ok_or(RowFault::Form)?))
}

/// A number, or `-` for a side that is absent.
pub fn side(word: &str) -> Result<Option<Fx>, RowFault> {
    match word {
        "-" => Ok(None),
        _ => Ok(Some(number(word)?)),
    }
}

/// `COLUMN:FACTOR`.
pub fn term(word: &str) -> Result<(u32, Fx), RowFault> {
    let (column, factor) = word.split_once(":").ok_or(RowFault::Form)?;
    let column = column.parse::<u32>().map_err(|_| RowFault::Form)?;
    Ok((column, number(factor)?))
}
