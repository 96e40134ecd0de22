// Rows that were worked out by hand, over the descriptions of specs/Examples.antt.
ghost use Rattle.std.specs.Prelude.{◌≡◌, ◌++◌, Ok, Err, codes};
ghost use Rattle.hydro_read.specs.declared.refusal.HydroKind.TheVariants as kinds;
ghost use Rattle.hydro_read.specs.declared.refusal.HydroPart.TheVariants as part_kinds;
ghost use Rattle.hydro_read.specs.Examples.{one_stage_example, one_stage_plants, travel_example, travel_plants, natural_example};
ghost use Rattle.hydro_read.specs.Plants.{plants_of};
ghost use Rattle.hydro_read.specs.Texts.{hydro_word, hydro_refusal_text};

/// The definitions' values on two small descriptions, and the refusals of worse ones.
pub fn worked_rows()
    ensures one_stage { plants_of one_stage_example ≡ Ok one_stage_plants }
    ensures travel { plants_of (travel_example (codes "b") 1 65534) ≡ Ok travel_plants }
    ensures unknown_bus { plants_of (travel_example (codes "x") 1 65534)
        ≡ Err (record { kind = kinds.UnknownName; part = part_kinds.Reservoir; a = 0; b = 0 }) }
    ensures low { plants_of (travel_example (codes "b") 8 65534)
        ≡ Err (record { kind = kinds.Limit; part = part_kinds.Reservoir; a = 0; b = 0 }) }
    ensures total { plants_of (travel_example (codes "b") 1 65535)
        ≡ Err (record { kind = kinds.Limit; part = part_kinds.Stage; a = 0; b = 0 }) }
    ensures weight { plants_of (travel_example (codes "b") 1 0)
        ≡ Err (record { kind = kinds.Limit; part = part_kinds.Stage; a = 0; b = 1 }) }
    ensures no_object { plants_of (natural_example 7)
        ≡ Err (record { kind = kinds.Shape; part = part_kinds.Whole; a = 0; b = 0 }) }
    ensures text { hydro_refusal_text (record { kind = kinds.UnknownName; part = part_kinds.Reservoir; a = 0; b = 1 })
        ≡ codes "hydro refused: UnknownName at reservoir" ++ hydro_word 0 ++ hydro_word 1 }
{}
