// Why a list of certificates is not accepted.

/// The first fault of a list of certificates. All numbers count from 0.
#[derive(Clone, Copy, Debug, PartialEq, Eq)]
pub enum CertFault {
    /// The list has not one certificate per realization (then the shorter of both lengths), or a certificate has not one
    /// multiplier per row and one list of pairs per successor.
    Shape {
        realization: u32,
    },
    /// A positive multiplier on a row without a lower side, or a negative one on a row without an upper side.
    Sign {
        realization: u32,
        row: u32,
    },
    /// A pair whose place does not rise above the one before or is not in the successor's pool, or whose multiplier is 0.
    Cutless {
        realization: u32,
        successor: u32,
        entry: u32,
    },
    /// The multipliers of a successor do not sum to 2^24 times its weight.
    Sum {
        realization: u32,
        successor: u32,
    },
    /// The size exceeds 2^127 - 1: the least realization such that the terms of the realizations up to it do, or the
    /// number of realizations where only the remainders of the slopes bring it there.
    Range {
        realization: u32,
    },
}
