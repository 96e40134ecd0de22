// A disk that was worked out by hand, byte by byte.
ghost use Rattle.std.specs.Prelude.{◌≡◌, [], ◌∷◌};
ghost use Rattle.base_device.specs.Changes.{wrote, cut_to, synced, at_rest, after_changes, Image};

// The bytes that changes leave of `abcdef`, and of `abc`.
pub(crate) fn worked_rows()
    ensures contents { after_changes (wrote 4 (120 ∷ 121 ∷ 122 ∷ []) ∷ synced ∷ wrote 1 (112 ∷ 113 ∷ [])
        ∷ cut_to 5 ∷ []) (at_rest (97 ∷ 98 ∷ 99 ∷ 100 ∷ 101 ∷ 102 ∷ [])) ≡ record {
          kept = 97 ∷ 112 ∷ 113 ∷ 100 ∷ 120 ∷ [];
          lost = 97 ∷ 98 ∷ 99 ∷ 100 ∷ 120 ∷ 121 ∷ 122 ∷ [];
          torn = 97 ∷ 165 ∷ 165 ∷ 100 ∷ 120 ∷ [];
        } }

    // A crash may leave any byte in the range of a write, and no other byte elsewhere.
    ensures inside { Image (wrote 1 (112 ∷ 113 ∷ []) ∷ []) (97 ∷ 98 ∷ 99 ∷ []) (97 ∷ 112 ∷ 7 ∷ []) }
    ensures outside { ¬ Image (wrote 1 (112 ∷ 113 ∷ []) ∷ []) (97 ∷ 98 ∷ 99 ∷ [])
        (7 ∷ 112 ∷ 113 ∷ []) }

    // A crash may leave a length between those of a cut, and none below.
    ensures shorter { Image (cut_to 1 ∷ []) (97 ∷ 98 ∷ 99 ∷ []) (97 ∷ 98 ∷ []) }
    ensures too_short { ¬ Image (cut_to 1 ∷ []) (97 ∷ 98 ∷ 99 ∷ []) [] }

    // A sync leaves no way back.
    ensures settled { ¬ Image (wrote 1 (112 ∷ 113 ∷ []) ∷ synced ∷ []) (97 ∷ 98 ∷ 99 ∷ [])
        (97 ∷ 98 ∷ 99 ∷ []) }
{}
