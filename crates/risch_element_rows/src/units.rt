// Units.
use crate::values::Values;
use risch_elem::{Counter, Run, Units};
use risch_tables::first_word;
use std::num::ParseIntError;

/// Counts units, of which there are at most so many.
pub fn play(operands: &str, values: &mut Values) -> Result<(), ParseIntError> {
    let (most, calls) = first_word(operands);
    count(most.parse()?, calls.parse()?, values);
    Ok(())
}

fn count(most: u64, calls: u16, values: &mut Values) {
    let mut counter = Counter::new(most);
    let mut end = "done";
    for _ in 0..calls {
        if !is_counted(&mut counter) {
            end = "budget";
        }
    }
    values.whole(counter.count());
    values.name(end);
}

fn is_counted(counter: &mut Counter) -> bool {
    match counter.unit() {
        Run::Done(()) => true,
        _ => false,
    }
}
