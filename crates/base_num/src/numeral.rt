// Numbers read from words.
ghost use Rattle.std.specs.Prelude.{◌≡◌, ◌≢◌, ◌<◌, ◌^◌, ℕ, decimal, MatchOption};
ghost use Rattle.std.specs.Char.{is_ascii_digit};
ghost use Rattle.std.specs.List.{list_all};
ghost use Rattle.base_num.specs.Numerals.{is_numeral, number_of};

/// The number that the word spells in decimal: one or more digits, no leading 0 but in the word `0`,
/// no sign, and at most 2^64 - 1. None exactly at every other word. It takes no memory.
#[tactic(auto, unfolding(crate::specs::Numerals::number_of))]
pub fn read_u64(word: &str) -> Option<u64>
    ensures value { result ≡ number_of word.now }
    ensures text { MatchOption result ((n : ℕ) → n < 2 ^ 64 → decimal n ≢ word.now)
        (λ n. decimal n ≡ word.now) }
{
    if is_numeral(word.as_bytes()) {
        word.parse().ok()
    } else {
        None
    }
}

fn is_numeral(word: &[u8]) -> bool
    ensures { result ≡ is_numeral word.now }
{
    match word.split_first() {
        Some((first, tail)) => has_only_digits(word) && (*first != b'0' || tail.is_empty()),
        None => false,
    }
}

fn has_only_digits(word: &[u8]) -> bool
    ensures { result ≡ list_all is_ascii_digit word.now }
{
    word.iter().all(u8::is_ascii_digit)
}
