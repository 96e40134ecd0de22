// A journal is read as it was written. Each law is the contract of a function with an empty body.
ghost use Rattle.std.specs.Prelude.{◌≡◌, ◌≢◌, ◌≤◌, ◌<◌, ◌+◌, ◌^◌, ℕ, suc, List, [], length, take, get_or, Ok};
ghost use Rattle.journal_file.specs.declared.head.Head.TheVariants as heads;
ghost use Rattle.journal_file.specs.declared.commit_byte.CommitByte.TheVariants.{Clear, Set};
ghost use Rattle.journal_file.specs.Head.{head_of};
ghost use Rattle.journal_file.specs.CommitBytes.{commit_byte_of, payload_of};
ghost use Rattle.journal_file.specs.Layout.{Title, IsTitle, head_length, front, journal};
ghost use Rattle.journal_file.specs.IsPrefix.{Uncommitted};

/// The head of a journal is read with the version, the digest, the seed and the batch that were written,
/// and the head of a file that is no journal yet as not committed. The first commit byte is the head's last byte.
pub fn head_as_written()
    ensures committed { (t : Title) (payloads : List (List ℕ)) (commit_byte : ℕ) (tail : List ℕ) → IsTitle t
        → head_of (journal t payloads commit_byte tail) ≡ Ok (heads.Committed t.version t.digest t.seed t.batch) }
    ensures uncommitted { (t : Title) (bytes : List ℕ) → IsTitle t → Uncommitted t bytes
        → head_of bytes ≡ Ok (heads.Uncommitted (length bytes)) }
    ensures first { (t : Title) → IsTitle t → length (front t []) + 1 ≡ head_length t.version }
{}

/// The commit byte before each record of a journal is open, and the payload that is read behind it is that record's, up to the next
/// commit byte. The commit byte behind the last record is clear before the rest.
pub fn records_as_written()
    ensures open { (t : Title) (payloads : List (List ℕ)) (commit_byte : ℕ) (tail : List ℕ) (j : ℕ)
        → j < length payloads
        → commit_byte_of (journal t payloads commit_byte tail) (length (front t (take j payloads))) ≡ Ok Set }
    ensures payload { (t : Title) (payloads : List (List ℕ)) (commit_byte : ℕ) (tail : List ℕ) (j : ℕ)
        → j < length payloads → length (get_or payloads j []) ≤ 2 ^ 26
        → payload_of (journal t payloads commit_byte tail) (length (front t (take j payloads)))
        ≡ Ok (get_or payloads j []) }
    ensures next { (t : Title) (payloads : List (List ℕ)) (j : ℕ) → j < length payloads
        → length (front t (take (suc j) payloads))
        ≡ length (front t (take j payloads)) + 5 + length (get_or payloads j []) }
    ensures end { (t : Title) (payloads : List (List ℕ)) (commit_byte : ℕ) (tail : List ℕ) → commit_byte ≢ 1
        → commit_byte_of (journal t payloads commit_byte tail) (length (front t payloads)) ≡ Ok (Clear (length tail)) }
{}
