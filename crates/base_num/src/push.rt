// Texts that are added to bytes.
ghost use Rattle.std.specs.Prelude.{◌≡◌, ◌<◌, ◌++◌, OnOk, OnErr};
ghost use Rattle.std.specs.Fmt.{signed_decimal};
ghost use Rattle.std.specs.Io.{StartsWith};
ghost use Rattle.std.specs.List.{flat_map};
ghost use Rattle.base_num.specs.Texts.{Adds, digit_of, escaped, json_string};

use crate::Memory;
use itoa::Buffer;

/// Appends the piece. After `Memory` `out` is unchanged.
pub fn push_bytes(out: &mut Vec<u8>, piece: &[u8]) -> Result<(), Memory>
    ensures { Adds out.old.items out.new.items result piece.now }
{
    match out.extend_from_slice(piece) {
        Ok(()) => Ok(()),
        Err(_) => Err(Memory),
    }
}

/// Appends the decimal text of the number, with `-` before a negative one. After `Memory` `out` is
/// unchanged.
pub fn push_whole(out: &mut Vec<u8>, value: i128) -> Result<(), Memory>
    ensures { Adds out.old.items out.new.items result (signed_decimal value) }
{
    let mut buffer = Buffer::new();
    push_bytes(out, buffer.format(value).as_bytes())
}

/// Appends the name as a JSON string: between quotation marks, with `\"`, `\\`, `\b`, `\f`, `\n`,
/// `\r` and `\t`, each other character below 32 as `\u00` and two lower-case hexadecimal digits, and
/// all others as they are. After `Memory` `out` is unchanged.
pub fn push_name(out: &mut Vec<u8>, name: &str) -> Result<(), Memory>
    ensures { Adds out.old.items out.new.items result (json_string name.now) }
{
    let start = out.len();
    let result = push_quoted(out, name.as_bytes());
    if result.is_err() {
        out.truncate(start);
    }
    result
}

fn push_quoted(out: &mut Vec<u8>, name: &[u8]) -> Result<(), Memory>
    ensures ok { OnOk result (out.new.items ≡ out.old.items ++ json_string name.now) }
    ensures err { OnErr result (StartsWith out.new.items out.old.items) }
{
    push_bytes(out, b"\"")?;
    push_all(out, name)?;
    push_bytes(out, b"\"")
}

fn push_all(out: &mut Vec<u8>, name: &[u8]) -> Result<(), Memory>
    ensures ok { OnOk result (out.new.items ≡ out.old.items ++ flat_map escaped name.now) }
    ensures err { OnErr result (StartsWith out.new.items out.old.items) }
{
    for byte in name {
        push_escaped(out, *byte)?;
    }
    Ok(())
}

#[tactic(auto, unfolding(crate::specs::Texts::escaped))]
fn push_escaped(out: &mut Vec<u8>, byte: u8) -> Result<(), Memory>
    ensures { Adds out.old.items out.new.items result (escaped byte) }
{
    match byte {
        b'"' => push_bytes(out, b"\\\""),
        b'\\' => push_bytes(out, b"\\\\"),
        8 => push_bytes(out, b"\\b"),
        12 => push_bytes(out, b"\\f"),
        b'\n' => push_bytes(out, b"\\n"),
        b'\r' => push_bytes(out, b"\\r"),
        b'\t' => push_bytes(out, b"\\t"),
        0..=31 => push_bytes(
            out,
            &[b'\\', b'u', b'0', b'0', digit(byte / 16), digit(byte % 16)],
        ),
        _ => push_bytes(out, &[byte]),
    }
}

// A hexadecimal digit in lower case.
fn digit(value: u8) -> u8
    requires { value < 16 }
    ensures { result ≡ digit_of value }
{
    if value < 10 {
        b'0' + value
    } else {
        b'a' + (value - 10)
    }
}
