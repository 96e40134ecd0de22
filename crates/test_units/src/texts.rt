// Numbers and names as bytes, and numbers read from words.
use base_num::{Memory, push_bytes, push_name, push_whole, read_u64};
use std::alloc::Global;
use std::test::Fail;

#[test]
fn reads_numbers(rt: HostRuntime) {
    for (word, number) in [
        ("0", Some(0)),
        ("7", Some(7)),
        ("2000", Some(2000)),
        ("18446744073709551615", Some(u64::MAX)),
        ("18446744073709551616", None),
        ("99999999999999999999999999", None),
        ("", None),
        ("07", None),
        ("00", None),
        ("+7", None),
        ("-1", None),
        (" 7", None),
        ("7 ", None),
        ("7a", None),
    ] {
        assert_eq!(rt; read_u64(word), number, "at {word}");
    }
}

// The line that says a bound.
fn bound_line(alloc: Global, value: i128) -> Result<Vec<u8>, Memory> {
    let mut out = Vec::new(alloc);
    push_bytes(&mut out, b"bound ")?;
    push_whole(&mut out, value)?;
    Ok(out)
}

#[test]
fn pushes_numbers(rt: HostRuntime) -> Result<(), Fail> {
    for (value, text) in [
        (0, "bound 0"),
        (-7, "bound -7"),
        (16777216, "bound 16777216"),
        (i128::MAX, "bound 170141183460469231731687303715884105727"),
        (i128::MIN, "bound -170141183460469231731687303715884105728"),
    ] {
        assert_eq!(rt; bound_line(rt.alloc(), value)?.as_slice(), text.as_bytes());
    }
    Ok(())
}

fn quoted(alloc: Global, name: &str) -> Result<Vec<u8>, Memory> {
    let mut out = Vec::new(alloc);
    push_name(&mut out, name)?;
    Ok(out)
}

#[test]
fn pushes_names(rt: HostRuntime) -> Result<(), Fail> {
    for (name, text) in [
        ("", "\"\""),
        ("Itaipú", "\"Itaipú\""),
        ("a\"b\\c/d", "\"a\\\"b\\\\c/d\""),
        ("\u{8}\u{c}\n\r\t", "\"\\b\\f\\n\\r\\t\""),
        ("\0\u{1f}\u{7f} ", "\"\\u0000\\u001f\u{7f} \""),
    ] {
        assert_eq!(rt; quoted(rt.alloc(), name)?.as_slice(), text.as_bytes());
    }
    Ok(())
}
