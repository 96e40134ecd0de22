// The laws over the definitions. Each is the contract of a function with an empty body.
ghost use Rattle.std.specs.Prelude.{◌≡◌, ◌≤◌, ℕ, ℤ, List, [], ◌∷◌, ◌++◌, length, Ok, IfOk, IsOk};
ghost use Rattle.serde_json.specs.Data.{Data, depth};
ghost use Rattle.serde_json.specs.Written.{compact_text};
ghost use Rattle.problem.specs.Validated.{Validated};
ghost use Rattle.read_json.specs.Fields.{json_at};
ghost use Rattle.read_file.specs.Problem.{problem_at};
ghost use Rattle.theory.specs.Range.{based};
ghost use Rattle.theory.specs.Bound.{Under};
ghost use Rattle.theory.specs.View.{problem_of};
ghost use Rattle.hydro_read.specs.declared.plants.Plants.{Plants};
ghost use Rattle.hydro_read.specs.Described.{IsPlants};
ghost use Rattle.hydro_make.specs.Layout.{stores, hydro_variables, chances};
ghost use Rattle.hydro_make.specs.Rows.{all_rows};
ghost use Rattle.hydro_make.specs.Made.{problem_of_plants};
ghost use Rattle.hydro_make.specs.Text.{hydro_text, hydro_at};
ghost use Rattle.hydro_accept.specs.Fair.{Fair};
ghost use Rattle.hydro_accept.specs.Plans.{Means, UnderPlans};

/// The compact text of a value, and a newline, is read as the value.
pub fn text_read()
    ensures { (d : Data) → Fair d → depth d ≤ 127 → json_at (compact_text d ++ 10 ∷ []) ≡ Ok d }
{}

/// Read accepts the text that is made of plants whose description was read, and gives the problem that they mean.
/// Its base cuts are in range.
pub fn accepted()
    ensures problem { (h : Plants) → IsPlants h
        → (s : Validated) × (problem_at (hydro_text h) ≡ Ok s) × (problem_of s ≡ problem_of_plants h) }
    ensures base_fits { (h : Plants) → IsPlants h
        → IfOk (problem_at (hydro_text h)) (λ s. IsOk (based s)) }
{}

/// Read accepts each text that the bytes of a description give, and the base cuts of its problem are in range.
pub fn made_accepted()
    ensures problem { (bytes text : List ℕ) → hydro_at bytes ≡ Ok text → IsOk (problem_at text) }
    ensures base_fits { (bytes text : List ℕ) → hydro_at bytes ≡ Ok text
        → IfOk (problem_at text) (λ s. IsOk (based s)) }
{}

/// The meaning of the text that a description gives, for its plans: they are workable exactly where their trees are policies of
/// the text's problem, at equal cost; and a number that is at most the cost of each policy of that problem is at most the cost
/// of each workable plan.
pub fn made_means()
    ensures plans { (bytes text : List ℕ) → hydro_at bytes ≡ Ok text → Means bytes text }
    ensures bound { (bytes text : List ℕ) (s : Validated) (b : ℤ)
        → hydro_at bytes ≡ Ok text → problem_at text ≡ Ok s → Under (problem_of s) b → UnderPlans bytes b }
{}

/// The counts of a problem that is made of plants are within the limits of the reader.
pub fn within_limits()
    ensures states { (h : Plants) → IsPlants h → length (stores h) ≤ 50 }
    ensures decisions { (h : Plants) → IsPlants h → length (hydro_variables h) ≤ 200 }
    ensures randoms { (h : Plants) → IsPlants h → length (chances h) ≤ 50 }
    ensures rows { (h : Plants) → IsPlants h → length (all_rows h) ≤ 200 }
{}
