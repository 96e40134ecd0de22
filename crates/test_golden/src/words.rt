// Words of a line.
use crate::fault::RowFault;
use std::str::SplitWhitespace;

/// The next word of a line.
pub fn word<'a>(words: &mut SplitWhitespace<'a>) -> Result<&'a str, RowFault> {
    words.next().ok_or(RowFault::Form)
}

/// The next word of a line, which is a number below 2^32.
pub fn count(words: &mut SplitWhitespace<'_>) -> Result<u32, RowFault> {
    word(words)?.parse::<u32>().map_err(|_| RowFault::Form)
}
