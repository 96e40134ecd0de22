// The words of a stream.
ghost use Rattle.std.specs.Prelude.{◌≡◌, ◌+◌, ◌^◌, ◌<◌};
ghost use Rattle.plan_draw.specs.Drawn.{key_bytes, stream_of, word_in};

use rand_chacha::ChaCha20Rng;
use rand_core::SeedableRng;
use rand_core::utils::NextWord;

// The seed's bytes, the low one first, and 24 zeros.
#[tactic(auto, unfolding(crate::specs::Drawn::key_bytes))]
fn key_bytes(seed: u64) -> [u8; 32]
    ensures { result ≡ key_bytes seed }
{
    let mut bytes = [0; 32];
    bytes[0..8].copy_from_slice(&seed.to_le_bytes());
    bytes
}

// The start of a stream.
#[tactic(auto, unfolding(crate::specs::Drawn::stream_of))]
pub(crate) fn stream_of(seed: u64, stream: u64) -> ChaCha20Rng
    ensures { result ≡ stream_of seed stream }
{
    let mut words = ChaCha20Rng::from_seed(key_bytes(seed));
    words.set_stream(stream);
    words
}

// The next word of a stream.
#[tactic(auto, unfolding(crate::specs::Drawn::word_in))]
pub(crate) fn next(words: &mut ChaCha20Rng) -> u32
    requires { words.old.word_pos < 2 ^ 40 }
    ensures word { result ≡ word_in words.old words.old.word_pos }
    ensures later { words.new ≡ record words.old { word_pos = words.old.word_pos + 1 } }
{
    words.next_word()
}
