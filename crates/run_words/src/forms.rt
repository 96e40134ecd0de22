// The forms of the command line.
ghost use Rattle.std.specs.Prelude.{◌≡◌, ◌≤◌, ◌<◌, IfSome, Some, None, string_bytes};
ghost use Rattle.run_words.specs.Commands.{number_within, alone, on_journal, train_by, train_in_batches, train, simulate_by, simulate, gen_by, gen, command_by, command_of, texts};
ghost use Rattle.run_words.specs.Traits.{IsWithin};

use crate::command::Command;
use base_num::read_u64;
use problem::{
    MOST_GENERATED_RESERVOIRS, MOST_GENERATED_STAGES, MOST_ITERATIONS, MOST_PATHS, MOST_SIMULATIONS,
};

// The number that a word spells, from `least` to `most`.
#[tactic(auto, unfolding(crate::specs::Commands::number_within))]
fn number(word: &String, least: u32, most: u32) -> Option<u32>
    ensures value { result ≡ number_within least most (string_bytes word.now) }
    ensures small { IfSome result (λ n. n ≤ most) }
{
    let number = read_u64(word.as_str())?;
    if u64::from(least) <= number && number <= u64::from(most) {
        Some(number as u32)
    } else {
        None
    }
}

// The command, where no word is left.
fn alone(command: Command, words: &[String]) -> Option<Command>
    ensures { result ≡ alone command (texts words.now) }
{
    match words {
        [] => Some(command),
        _ => None,
    }
}

// The command, where the one word that is left names a journal.
fn on_journal(command: Command, words: &[String]) -> Option<Command>
    ensures { result ≡ on_journal command (texts words.now) }
{
    match words {
        [journal] if !journal.is_empty() => Some(command),
        _ => None,
    }
}

#[tactic(auto, unfolding(crate::specs::Commands::train_by))]
fn train_by(seed: &String, count: &String, batch: Option<u16>) -> Option<Command>
    ensures { result ≡ train_by (string_bytes seed.now) (string_bytes count.now) batch }
{
    let seed = read_u64(seed.as_str())?;
    let count = number(count, 0, MOST_ITERATIONS)?;
    Some(Command::Train { seed, count, batch })
}

// Training with a batch.
#[tactic(auto, unfolding(crate::specs::Commands::train_in_batches))]
fn train_batches(seed: &String, count: &String, batch: &String) -> Option<Command>
    ensures { result ≡ train_in_batches (string_bytes seed.now) (string_bytes count.now) (string_bytes batch.now) }
{
    let batch = number(batch, 1, u32::from(MOST_PATHS))?;
    train_by(seed, count, Some(batch as u16))
}

fn train(words: &[String]) -> Option<Command>
    ensures { result ≡ train (texts words.now) }
{
    match words {
        [journal, seed, count] if !journal.is_empty() => train_by(seed, count, None),
        [journal, seed, count, batch] if !journal.is_empty() => train_batches(seed, count, batch),
        _ => None,
    }
}

#[tactic(auto, unfolding(crate::specs::Commands::simulate_by))]
fn simulate_by(seed: &String, count: &String) -> Option<Command>
    ensures { result ≡ simulate_by (string_bytes seed.now) (string_bytes count.now) }
{
    let seed = read_u64(seed.as_str())?;
    let count = number(count, 0, MOST_SIMULATIONS)?;
    Some(Command::Simulate { seed, count })
}

fn simulate(words: &[String]) -> Option<Command>
    ensures { result ≡ simulate (texts words.now) }
{
    match words {
        [journal, seed, count] if !journal.is_empty() => simulate_by(seed, count),
        _ => None,
    }
}

#[tactic(auto, unfolding(crate::specs::Commands::gen_by))]
fn gen_by(seed: &String, stages: &String, reservoirs: &String) -> Option<Command>
    ensures { result ≡ gen_by (string_bytes seed.now) (string_bytes stages.now) (string_bytes reservoirs.now) }
{
    let seed = read_u64(seed.as_str())?;
    let stages = number(stages, 1, MOST_GENERATED_STAGES)?;
    let reservoirs = number(reservoirs, 1, MOST_GENERATED_RESERVOIRS)?;
    Some(Command::Gen {
        seed,
        stages,
        reservoirs,
    })
}

fn generate(words: &[String]) -> Option<Command>
    ensures { result ≡ gen (texts words.now) }
{
    match words {
        [seed, stages, reservoirs] => gen_by(seed, stages, reservoirs),
        _ => None,
    }
}

// Gives the command of a first word and the words behind it.
#[tactic(auto, unfolding(crate::specs::Commands::command_by))]
fn command_by(word: &str, words: &[String]) -> Option<Command>
    ensures { result ≡ command_by word.now (texts words.now) }
{
    match word {
        "base" => alone(Command::Base, words),
        "train" => train(words),
        "check" => on_journal(Command::Check, words),
        "simulate" => simulate(words),
        "validate" => on_journal(Command::Validate, words),
        "gen" => generate(words),
        "evaluate" => on_journal(Command::Evaluate, words),
        "hydro" => alone(Command::Hydro, words),
        "robust" => on_journal(Command::Robust, words),
        _ => None,
    }
}

/// The command that the words after the program's name ask for. None exactly where they are of none of the forms
///
/// `base`, `train JOURNAL SEED COUNT`, `train JOURNAL SEED COUNT BATCH`, `check JOURNAL`, `simulate JOURNAL SEED COUNT`,
/// `validate JOURNAL`, `gen SEED STAGES RESERVOIRS`, `evaluate JOURNAL`, `hydro` and `robust JOURNAL`,
///
/// with a JOURNAL that is not empty and numbers in decimal digits within their limits. It takes no memory.
#[tactic(auto, unfolding(crate::specs::Commands::command_of))]
pub fn read_words(words: &[String]) -> Option<Command>
    ensures value { result ≡ command_of (texts words.now) }
    ensures within { IfSome result IsWithin }
{
    let (word, tail) = words.split_first()?;
    command_by(word.as_str(), tail)
}
