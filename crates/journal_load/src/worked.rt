// Rows that were worked out by hand, over the problem and the journals of specs/Examples.antt.
ghost use Rattle.std.specs.Prelude.{◌≡◌, pos, [], ◌∷◌, Ok, Err, Some, None, take, true, replicate};
ghost use Rattle.cut_make.specs.declared.fault.CertFault.TheVariants as certificates;
ghost use Rattle.journal_file.specs.Layout.{journal};
ghost use Rattle.journal_load.specs.declared.refusal.LoadFault.TheVariants.{Refused};
ghost use Rattle.journal_load.specs.declared.refusal.JournalRefusal.TheVariants as refusals;
ghost use Rattle.journal_load.specs.Load.{load_of, uncommitted};
ghost use Rattle.journal_load.specs.Examples.{small, flat, base_example, digest, title_example, entry_example, payload, two, bytes};

/// The definitions' values on a problem of one stage: its journal of two records, and the refusals of worse ones.
pub fn worked_rows()
    ensures loaded { load_of small base_example digest (Some 9) None bytes ≡ Ok (
      record {
        pools = (flat (pos 0) ∷ flat (pos 100663296) ∷ flat (pos 100663296) ∷ []) ∷ [];
        bounds = pos 100663296 ∷ pos 100663296 ∷ [];
        unanswered = 2;
        committed = true;
        end = 101;
        tail = 2;
        version = 1;
        batch = 1;
      },
      (entry_example 1 ∷ []) ∷ (entry_example 2 ∷ []) ∷ [],
    ) }
    ensures uncommitted { load_of small base_example digest (Some 9) (Some 3) [] ≡ Ok (uncommitted base_example (Some 3), []) }
    ensures other_problem { load_of small base_example (replicate 32 8) (Some 8) (Some 2) bytes ≡ Err (Refused (refusals.OtherProblem digest (replicate 32 8))) }
    ensures other_seed { load_of small base_example digest (Some 8) (Some 2) bytes ≡ Err (Refused (refusals.OtherSeed 9 8)) }
    ensures other_batch { load_of small base_example digest (Some 9) (Some 2) bytes ≡ Err (Refused (refusals.OtherBatch 1 2)) }
    ensures short_commit_byte { load_of small base_example digest None None (take 76 bytes) ≡ Err (Refused (refusals.Short 76)) }
    ensures short_payload { load_of small base_example digest None None (take 75 bytes) ≡ Err (Refused (refusals.Short 56)) }
    ensures short_length { load_of small base_example digest None None (take 55 bytes) ≡ Err (Refused (refusals.Short 52)) }
    ensures bad_record { load_of small base_example digest None None (journal title_example (payload 1 0 two ∷ payload 3 0 two ∷ []) 0 []) ≡ Err (Refused (refusals.BadRecord 2 0)) }
    ensures bad_certificate { load_of small base_example digest None None (journal title_example (payload 1 0 (replicate 8 255) ∷ []) 0 []) ≡ Err (Refused (refusals.BadCertificate 1 0 (certificates.Sign 0 0))) }
{}
