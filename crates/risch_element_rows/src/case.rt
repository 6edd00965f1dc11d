// A case of a table: the calls, what they give, and what is expected.
use crate::towers::{Towers, push};
use crate::values::{Values, append};
use crate::{elements, fractions, polynomials, sequences, towers, units};
use risch_tables::{Case, Fault, Report, first_word};
use std::alloc::{AllocError, Global};

/// A case, whose calls are played as they are read.
#[derive(Drop)]
pub struct ElementCase {
    name: String,
    towers: Towers,
    values: Values,
    expected: String,
}

impl Case for ElementCase {
    fn begin(alloc: Global, name: &str) -> Result<ElementCase, AllocError> {
        Ok(ElementCase {
            name: String::from_str(alloc, name)?,
            towers: Towers::new(alloc),
            values: Values::new(alloc),
            expected: String::new(alloc),
        })
    }

    fn read(&mut self, alloc: Global, key: &str, value: &str) -> Result<(), Fault> {
        match key {
            "is" => self.expect(value),
            "units" => self.count(value),
            _ => self.play(alloc, key, value),
        }
    }

    fn end(&self, alloc: Global, report: &mut Report) -> Result<(), Fault> {
        if self.expected.is_empty() {
            return Err(Fault::Cause("a case without a line `is`"));
        }
        if self.values.are_written(alloc, self.expected.as_str()) {
            return Ok(());
        }
        match self.differ(alloc, report) {
            Ok(()) => Ok(()),
            Err(error) => Err(Fault::Memory(error)),
        }
    }
}

impl ElementCase {
    fn expect(&mut self, words: &str) -> Result<(), Fault> {
        match append(&mut self.expected, words) {
            Ok(()) => Ok(()),
            Err(error) => Err(Fault::Memory(error)),
        }
    }

    fn count(&mut self, operands: &str) -> Result<(), Fault> {
        match units::play(operands, &mut self.values) {
            Ok(()) => self.values.refusal(),
            Err(error) => Err(Fault::Number(error)),
        }
    }

    fn play(&mut self, alloc: Global, key: &str, value: &str) -> Result<(), Fault> {
        call(alloc, &mut self.towers, key, value, &mut self.values);
        self.values.refusal()
    }

    fn differ(&self, alloc: Global, report: &mut Report) -> Result<(), AllocError> {
        let got = self.values.text(alloc)?;
        report.differ(alloc, self.name.as_str(), "values", &self.expected, &got)
    }
}

fn call(alloc: Global, towers: &mut Towers, key: &str, value: &str, values: &mut Values) {
    let (call, operands) = first_word(value);
    match key {
        "push" => push(alloc, &mut towers.tower, call, operands, values),
        "push-other" => push(alloc, &mut towers.other, call, operands, values),
        "coefficients" => polynomials::of(alloc, value, values),
        "remainders" => sequences::play(alloc, value, values),
        _ => call_of(alloc, towers, key, call, operands, values),
    }
}

fn call_of(
    alloc: Global,
    towers: &Towers,
    key: &str,
    call: &str,
    operands: &str,
    values: &mut Values,
) {
    match key {
        "fraction" => fractions::play(alloc, call, operands, values),
        "element" => elements::play(alloc, &towers.tower, call, operands, values),
        "polynomial" => polynomials::play(alloc, &towers.tower, call, operands, values),
        "tower" => towers::play(alloc, towers, call, operands, values),
        _ => values.cause("no such key"),
    }
}
