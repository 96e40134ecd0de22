// Descriptions of plants, read or refused.
use base_num::Memory;
use hydro_read::{HydroFault, HydroKind, kind_number, push_hydro_refusal, read_plants};
use std::alloc::Global;
use std::test::Fail;

const ONE_STAGE: &str =
    "{\"buses\":{\"b\":{\"deficit_cost\":200}},\"thermals\":{\"t\":{\"bus\":\"b\",\"high\":20,\"cost\":5}},\"stages\":[{\"demand\":{\"b\":9},\"inflows\":[{\"weight\":1,\"inflow\":{}}]}]}";

// The line of a refusal, `read` where the text is read.
fn line(alloc: Global, text: &str) -> Result<Vec<u8>, Memory> {
    let mut out = Vec::new(alloc);
    match read_plants(alloc, text.as_bytes()) {
        Ok(_) => push_read(&mut out)?,
        Err(HydroFault::Refused(refusal)) => push_hydro_refusal(&mut out, refusal)?,
        Err(HydroFault::Memory) => return Err(Memory),
    }
    Ok(out)
}

fn push_read(out: &mut Vec<u8>) -> Result<(), Memory> {
    Ok(out.extend_from_slice(b"read")?)
}

#[test]
fn reads_or_refuses(rt: HostRuntime) -> Result<(), Fail> {
    for (text, expected) in [
        (ONE_STAGE, "read"),
        ("{", "hydro refused: NotJson at whole 0 0"),
        ("[]", "hydro refused: Shape at whole 0 0"),
        (
            "{\"buses\":{},\"stages\":[]}",
            "hydro refused: Limit at whole 0 0",
        ),
        (
            "{\"buses\":{\"b\":7},\"stages\":[7]}",
            "hydro refused: Shape at bus 0 0",
        ),
    ] {
        let found = line(rt.alloc(), text)?;
        assert_eq!(rt; found.as_slice(), expected.as_bytes(), "at {text}");
    }
    Ok(())
}

#[test]
fn numbers_kinds(rt: HostRuntime) {
    assert_eq!(rt; kind_number(HydroKind::NotJson), 1);
    assert_eq!(rt; kind_number(HydroKind::States), 6);
}
