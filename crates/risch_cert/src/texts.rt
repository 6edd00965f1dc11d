//! Texts that are digits alone, or a variable with or without an exponent.

ghost use Rattle.std.specs.Prelude.{◌≡◌, string_bytes};
ghost use Rattle.risch_cert.specs.Texts as spec;

use risch_io::Text;

/// The bytes of a text.
pub(crate) fn bytes_of(text: String) -> Text
    ensures { result ≡ string_bytes text }
{
    Text::from_vec(text.into_bytes())
}

/// Whether the text is one or more digits.
#[tactic(auto, using(crate::proofs::TextSteps::digits_alone))]
pub(crate) fn is_digits(text: &[u8]) -> bool
    ensures { result ≡ spec.is_digits text.now }
{
    match text.split_first() {
        Some((first, rest)) => first.is_ascii_digit() && after_digits(rest).is_empty(),
        None => false,
    }
}

/// The text behind the digits at the front.
#[tactic(auto, using(crate::proofs::TextSteps::after_digits_end, crate::proofs::TextSteps::after_digits_more, crate::proofs::TextSteps::after_digits_stop))]
fn after_digits(text: &[u8]) -> &[u8]
    ensures { result.now ≡ spec.after_digits text.now }
{
    let mut rest = text;
    while let Some((byte, after)) = rest.split_first() {
        if !byte.is_ascii_digit() {
            return rest;
        }
        rest = after;
    }
    rest
}

/// Whether the text is empty, or `^` and digits.
fn is_exponent(text: &[u8]) -> bool
    ensures { result ≡ spec.is_exponent text.now }
{
    match text.split_first() {
        Some((first, rest)) => *first == b'^' && is_digits(rest),
        None => true,
    }
}

/// Whether the text is digits, and behind them an exponent or nothing.
fn is_numbered(text: &[u8]) -> bool
    ensures { result ≡ spec.is_numbered text.now }
{
    match text.split_first() {
        Some((first, rest)) => first.is_ascii_digit() && is_exponent(after_digits(rest)),
        None => false,
    }
}

/// Whether the text is a variable with or without an exponent: `t` with its digits, `x` or `z`.
#[tactic(auto, unfolding(crate::specs::Texts::is_power))]
pub(crate) fn is_power(text: &[u8]) -> bool
    ensures { result ≡ spec.is_power text.now }
{
    match text.split_first() {
        Some((b't', rest)) => is_numbered(rest),
        Some((b'x' | b'z', rest)) => is_exponent(rest),
        _ => false,
    }
}
