// Ranges that every description keeps once it is read.
ghost use Rattle.std.specs.Prelude.{◌≡◌, ℕ, List, Ok};
ghost use Rattle.hydro_read.specs.declared.plants.Plants.{Plants};
ghost use Rattle.hydro_read.specs.Described.{IsPlants};
ghost use Rattle.hydro_read.specs.Plants.{plants_at};

/// Every description that is read keeps the ranges of its counts and numbers, and each of its numbers of buses and
/// reservoirs names one.
pub fn descriptions_fit()
    ensures { (bytes : List ℕ) (p : Plants) → plants_at bytes ≡ Ok p → IsPlants p }
{}
