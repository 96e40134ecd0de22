// Parts of names.
ghost use Rattle.std.specs.Prelude.{◌≡◌, ◌<◌, IsAscii};
ghost use Rattle.hydro_form.specs.Listed.{digit};

/// The last digit of a number, as a byte of ASCII.
pub fn digit(number: u32) -> u8
    ensures value { result ≡ digit number }
    ensures ascii { result < 128 }
{
    b'0' + (number % 10) as u8
}

/// A name of ASCII as text.
pub fn text_of(name: &[u8]) -> &str
    requires { IsAscii name.now }
    ensures { result.now ≡ name.now }
{
    let Ok(text) = str::from_utf8(name) else {
        unreachable!()
    };
    text
}
