// Bytes as a readable text of one line, and back.
ghost use Rattle.std.specs.Prelude.{◌<◌, length, IfOk};

use risch_tables::Fault;
use std::fmt;

const NO_BYTE: Fault = Fault::Cause("a backslash that stands for no byte");

/// Appends the bytes that a text with escapes stands for.
pub fn unescape(bytes: &mut Vec<u8>, text: &str) -> Result<(), Fault> {
    let mut rest = text.as_bytes();
    while !rest.is_empty() {
        let (byte, others) = first_byte(rest)?;
        bytes.push(byte)?;
        rest = others;
    }
    Ok(())
}

// The first byte that a text stands for, and the text after it.
fn first_byte(text: &[u8]) -> Result<(u8, &[u8]), Fault>
    requires { 0 < length text.now }
    ensures { IfOk result (λ first. length first.1.now < length text.now) }
{
    match text {
        [b'\\', b'x', high, low, rest @ ..] => Ok((16 * digit(*high)? + digit(*low)?, rest)),
        [b'\\', letter, rest @ ..] => Ok((named(*letter)?, rest)),
        [b'\\'] => Err(NO_BYTE),
        _ => Ok((text[0], &text[1..])),
    }
}

// The byte that a backslash and a letter stand for.
fn named(letter: u8) -> Result<u8, Fault> {
    match letter {
        b'n' => Ok(b'\n'),
        b't' => Ok(b'\t'),
        b'r' => Ok(b'\r'),
        b's' => Ok(b' '),
        b'\\' => Ok(b'\\'),
        _ => Err(NO_BYTE),
    }
}

fn digit(code: u8) -> Result<u8, Fault>
    ensures { IfOk result (λ value. value < 16) }
{
    match code {
        b'0'..=b'9' => Ok(code - b'0'),
        b'a'..=b'f' => Ok(code - b'a' + 10),
        b'A'..=b'F' => Ok(code - b'A' + 10),
        _ => Err(NO_BYTE),
    }
}

/// Bytes that print as a text with escapes, in one line that does not end with a blank.
#[derive(Clone, Copy)]
pub struct Escaped<'a>(pub &'a [u8]);

impl fmt::Display for Escaped<'_> {
    fn fmt<W: fmt::Write>(&self, f: &mut fmt::Formatter<W>) -> fmt::Result {
        match self.0.split_last() {
            None => Ok(()),
            Some((last, front)) => {
                for byte in front {
                    write_byte(f, *byte)?;
                }
                if *last == b' ' {
                    f.write_str("\\s")
                } else {
                    write_byte(f, *last)
                }
            }
        }
    }
}

fn write_byte<W: fmt::Write>(f: &mut fmt::Formatter<W>, byte: u8) -> fmt::Result {
    match byte {
        b'\n' => f.write_str("\\n"),
        b'\t' => f.write_str("\\t"),
        b'\r' => f.write_str("\\r"),
        b'\\' => f.write_str("\\\\"),
        b' '..=b'~' => f.write_char(char::from(byte)),
        _ => write!(f, "\\x{byte:02x}"),
    }
}
