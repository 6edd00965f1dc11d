// The value of a line of a table.
use crate::Fault;

/// Sets what a case says but once.
///
/// Faults: it was said before.
pub fn set<T: Drop>(place: &mut Option<T>, value: T) -> Result<(), Fault> {
    match place.replace(value) {
        None => Ok(()),
        Some(_) => Err(Fault::Cause("a second line of this key")),
    }
}

/// The text before the first blank, and the text behind it.
pub fn first_word(text: &str) -> (&str, &str) {
    text.split_once(' ').unwrap_or((text, ""))
}
