// Numbers in fixed point round down, and 128 bits bound them.
use lp_program::Fx;
use lp_program::fixed::ONE;

#[test]
fn multiplies(rt: HostRuntime) {
    assert_eq!(rt; Fx(-1).mul(Fx(1)), Some(Fx(-1)));
    assert_eq!(rt; Fx(3 * ONE).mul(Fx(ONE / 2)), Some(Fx(3 * ONE / 2)));
    assert_eq!(rt; Fx(1 << 100).mul(Fx(1 << 27)), None);
}

#[test]
fn divides(rt: HostRuntime) {
    assert_eq!(rt; Fx(1).div(Fx(0)), None);
    assert_eq!(rt; Fx(1).div(Fx(-3)), Some(Fx(-1431655766)));
    assert_eq!(rt; Fx(1 << 95).div(Fx(1)), None);
}

#[test]
fn adds_and_subtracts(rt: HostRuntime) {
    assert_eq!(rt; Fx(i128::MAX).add(Fx(1)), None);
    assert_eq!(rt; Fx(2).sub(Fx(5)), Some(Fx(-3)));
}
