// The texts behind `--help` and `--version`.
ghost use Rattle.std.specs.Prelude.{◌≡◌, option_map};
ghost use Rattle.run_words.specs.Commands.{texts};
ghost use Rattle.run_program.specs.Words.{text_asked};

/// One screen: each command with what it reads and writes, and the numbers of the statuses.
const HELP: &[u8] =
    b"hydroplan: plans hydropower reservoirs and thermal plants by stochastic dual dynamic programming.
Each cut and each bound that it prints is certified: no policy costs less than the bound.

usage: hydroplan COMMAND < PROBLEM > REPORT

  base                                 prints the cuts that need no training, and their bound
  train JOURNAL SEED COUNT [BATCH]     trains up to COUNT iterations (0 to 2000) of BATCH paths (1 to 64), prints the
                                       bounds; reads and writes JOURNAL, goes on where it stopped
  check JOURNAL                        checks each certificate of JOURNAL, prints its cuts and bounds
  simulate JOURNAL SEED COUNT          prints the decisions in COUNT drawn scenarios (0 to 1000)
  validate JOURNAL                     prints the decisions in the scenarios that the problem stores
  evaluate JOURNAL                     prints what the whole policy costs, or the first branch where it misses a row
  robust JOURNAL                       prints what holds for the worst of the weights that the problem lists
  hydro                                reads a description of hydro plants in the place of PROBLEM, prints its problem
  gen SEED STAGES RESERVOIRS           prints a problem: 1 to 500 stages, 1 to 10 reservoirs; reads nothing

PROBLEM is a JSON file of at most 16 MiB. Every command but train leaves JOURNAL as it is.
Ends with 0 where the report was written whole. Else a line on standard error says why:
  2 usage  3 problem not read  4 problem too long  5 problem refused  6 journal refused  7 too much
  8 range  9 no stage solution  10 journal device failed  11 output failed  12 memory  14 description refused

docs/use/GUIDE.md shows how to write a problem and how to read the reports; docs/use/FORMAT.md has each member of the file.
";

/// The program's name and the versions of what it reads and writes.
const VERSION: &[u8] = b"hydroplan 1 (problems 1.0, journals 1 and 2)\n";

/// The text that is asked for, where the only word is `--help` or `--version`.
pub(crate) fn own_text(words: &[String]) -> Option<&'static [u8]>
    ensures { option_map (λ text. text.now) result ≡ text_asked (texts words.now) }
{
    match words {
        [word] if word.as_str() == "--help" => Some(HELP),
        [word] if word.as_str() == "--version" => Some(VERSION),
        _ => None,
    }
}
