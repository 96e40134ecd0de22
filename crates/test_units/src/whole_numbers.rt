// Whole numbers: sums of sizes, quotients, products, numbers of 256 bits, and numbers in bytes.
use base_num::{Size, add_product, big_endian, floor_div};
use lp_wide_table::{Wide, inverse, shift};

#[test]
fn adds_sizes(rt: HostRuntime) {
    let half = 1u128 << 63;
    for (first, second, total) in [
        ([3, 5, 7, 11], [2, 1, 1, 1], Some(1157)),
        (
            [half, half, 1, 1],
            [0, u128::MAX, u128::MAX, 1],
            Some(1 << 126),
        ),
        ([half, half, 1, 1], [half, half, 1, 1], None),
        (
            [(1 << 127) - 2, 1, 1, 1],
            [1, 1, 1, 1],
            Some((1 << 127) - 1),
        ),
        ([(1 << 127) - 1, 1, 1, 1], [1, 1, 1, 1], None),
        ([1 << 127, 1, 1, 1], [0, 0, 0, 0], None),
    ] {
        let sum = Size::zero().plus(first);
        let sum = sum.and_then(|size| size.plus(second));
        assert_eq!(rt; sum.map(|size| size.total()), total);
    }
}

#[test]
fn divides_and_adds(rt: HostRuntime) {
    for (a, d, quotient) in [
        (-7, 2, -4),
        (-8, 2, -4),
        (-1, 65535, -1),
        (0, 3, 0),
        (7, 2, 3),
        (i128::MIN, 1, i128::MIN),
    ] {
        if d >= 1 {
            assert_eq!(rt; floor_div(a, d), quotient, "{a} over {d}");
        }
    }
    assert_eq!(rt; add_product(5, -3, 4), -7);
}

#[test]
fn rounds_wide_numbers(rt: HostRuntime) {
    assert_eq!(rt; inverse(-5), -34028236692093846346337460743176821145);
    assert_eq!(rt; Wide::product(1 << 40, -(1 << 39)).down(), Some(0));
    assert_eq!(rt; Wide::product(7, -1).nearest(1), Some(-3));
    assert_eq!(rt; shift(-5, 248).is_none(), true);
}

#[test]
fn reads_numbers(rt: HostRuntime) {
    let bytes = [0, 1, 2, 3, 4, 5, 6, 7, 8];
    assert_eq!(rt; big_endian::u16_at(&bytes, 1), 0x0102);
    assert_eq!(rt; big_endian::u32_at(&bytes, 2), 0x02030405);
    assert_eq!(rt; big_endian::u64_at(&bytes, 1), 0x0102030405060708);
}
