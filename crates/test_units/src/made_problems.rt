// Problems that are made: of a description of plants, and from a seed.
use hydro_gen::generate;
use hydro_make::make;
use hydro_read::{HydroFault, HydroKind, HydroPart, HydroRefusal};
use std::test::Fail;

const ONE_STAGE: &[u8] =
    b"{\"buses\":{\"b\":{\"deficit_cost\":200}},\"thermals\":{\"t\":{\"bus\":\"b\",\"high\":20,\"cost\":5}},\"stages\":[{\"demand\":{\"b\":9},\"inflows\":[{\"weight\":1,\"inflow\":{}}]}]}";

// Its text begins so, by another reading of the rules.
const NODE: &[u8] =
    b"{\"nodes\":{\"s001\":{\"realizations\":[{\"probability\":1,\"support\":{\"d:b\":9}}],\"subproblem\":\"p\",\"successors\":{}}},\"root\":{\"state_variables\":{},\"successors\":{\"s001\":1}},\"subproblems\":{\"p\":{\"random_variables\":[\"d:b\"],";

#[test]
fn makes_a_problem(rt: HostRuntime) -> Result<(), Fail> {
    let text = make(rt.alloc(), ONE_STAGE)?;
    assert_eq!(rt; text.len(), 921);
    assert!(rt; text.starts_with(NODE));
    Ok(())
}

#[test]
fn refuses_no_description(rt: HostRuntime) {
    let refusal = HydroRefusal {
        kind: HydroKind::Shape,
        part: HydroPart::Whole,
        a: 0,
        b: 0,
    };
    assert!(rt;
        matches!(make(rt.alloc(), b"[]"), Err(HydroFault::Refused(found)) if found == refusal)
    );
}

// The first node of one stage with one reservoir, by another reading of the rules.
const DRY: &[u8] =
    b"{\"nodes\":{\"s001w0\":{\"realizations\":[{\"probability\":1,\"support\":{\"w01\":1}},{\"probability\":1,\"support\":{\"w01\":0}},{\"probability\":1,\"support\":{\"w01\":9}},{\"probability\":1,\"support\":{\"w01\":5}}";

#[test]
fn generates_from_a_seed(rt: HostRuntime) -> Result<(), Fail> {
    let text = generate(rt.alloc(), 1, 1, 1)?;
    assert_eq!(rt; text.len(), 2634);
    assert!(rt; text.starts_with(DRY));
    Ok(())
}
