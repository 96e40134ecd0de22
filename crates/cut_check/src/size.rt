// The size of a list of certificates: the sum of absolute values, before any cancellation, that acceptance bounds.
mod bound;
mod cuts;
mod fixed;
mod range;
mod repeated;
mod rows;
mod stages;
mod tally;
mod terms;

pub(crate) use fixed::{FEW_ROWS, FixedAmounts, write_rows};
pub(crate) use range::{remainders_range, sums_in_range};
pub(crate) use repeated::repeated_range;
pub(crate) use stages::realization_size;
