// The value of a line of a table.
use crate::escape::unescape;
use risch_tables::{Fault, first_word};
use std::alloc::Global;

/// Appends the bytes of a text as many times as the number before it says.
pub fn repeat(alloc: Global, bytes: &mut Vec<u8>, value: &str) -> Result<(), Fault> {
    let (count, text) = first_word(value);
    let count: u32 = count.parse()?;
    let mut piece = Vec::new(alloc);
    unescape(&mut piece, text)?;
    for _ in 0..count {
        bytes.extend_from_slice(piece.as_slice())?;
    }
    Ok(())
}

/// Numbers with blanks between them.
pub fn numbers(alloc: Global, value: &str) -> Result<Vec<u64>, Fault> {
    let mut numbers = Vec::new(alloc);
    for number in value.split_whitespace() {
        numbers.push(number.parse()?)?;
    }
    Ok(numbers)
}

/// Words with blanks between them.
pub fn words(alloc: Global, value: &str) -> Result<Vec<String>, Fault> {
    let mut words = Vec::new(alloc);
    for word in value.split_whitespace() {
        let mut bytes = Vec::new(alloc);
        unescape(&mut bytes, word)?;
        words.push(String::from_utf8(bytes).map_err(|_| Fault::Cause("a word that is no text"))?)?;
    }
    Ok(words)
}
