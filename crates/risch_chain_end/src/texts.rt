//! Texts of bytes.

ghost use Rattle.std.specs.Prelude.{◌≡◌, IfOk, decimal};

use risch_io::Text;
use std::alloc::{AllocError, Global};

/// The bytes of a text.
///
/// `Err` for want of memory alone.
pub fn text(alloc: Global, of: &str) -> Result<Text, AllocError>
    ensures { IfOk result (λ text. text ≡ of.now) }
{
    let copy = String::from_str(alloc, of)?;
    Ok(Text::from_vec(copy.into_bytes()))
}

/// A number in digits.
pub(crate) fn digits(alloc: Global, number: u16) -> Result<Text, AllocError>
    ensures { IfOk result (λ text. text ≡ decimal number) }
{
    let copy = format!(in alloc; "{number}")?;
    Ok(Text::from_vec(copy.into_bytes()))
}
