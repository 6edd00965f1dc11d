// The values that the calls of a case give.
use crate::conditions::are_coefficients;
use crate::halt::{Halt, name_of};
use crate::operands::{element, polynomial};
use risch_cert::{print_elem, print_poly_in_z};
use risch_elem::{Elem, ElemList, Fail, Poly, PolyList, Run, Stop};
use risch_frac::Frac;
use risch_hermite::Hermite;
use risch_io::Text;
use risch_residue::Residues;
use risch_rootsum::LogPart;
use risch_split::{Canonical, Split};
use risch_tables::Fault;
use std::alloc::{AllocError, Global};

#[derive(Drop)]
enum Value {
    Element(Elem),
    Polynomial(Poly),
    /// A value that is neither, by its name.
    Name(&'static str),
}

// Whether a word stands for an element.
fn is_element(alloc: Global, value: &Elem, word: &str) -> bool {
    match element(alloc, word) {
        Ok(written) => value.same(&written),
        Err(_) => false,
    }
}

// Whether a word stands for a polynomial.
fn is_polynomial(alloc: Global, value: &Poly, word: &str) -> bool {
    match polynomial(alloc, word) {
        Ok(written) => value.same(&written),
        Err(_) => false,
    }
}

// Appends a blank where there are words before.
fn push_blank(text: &mut String) -> Result<(), AllocError> {
    if text.is_empty() {
        Ok(())
    } else {
        text.push_str(" ")
    }
}

/// Appends words.
pub fn append(text: &mut String, words: &str) -> Result<(), AllocError> {
    push_blank(text)?;
    text.push_str(words)
}

fn push(text: &mut String, word: &Text) -> Result<(), AllocError> {
    push_blank(text)?;
    for byte in word.as_slice() {
        text.push(char::from(*byte))?;
    }
    Ok(())
}

// Appends the text of a value.
fn push_formed(text: &mut String, word: Result<Text, AllocError>) -> Result<(), AllocError> {
    push(text, &word?)
}

impl Value {
    // Whether there is a word that stands for this value.
    fn is_written(&self, alloc: Global, word: Option<&str>) -> bool {
        match word {
            Some(word) => self.is(alloc, word),
            None => false,
        }
    }

    fn is(&self, alloc: Global, word: &str) -> bool {
        match self {
            Value::Element(value) => is_element(alloc, value, word),
            Value::Polynomial(value) => is_polynomial(alloc, value, word),
            Value::Name(name) => *name == word,
        }
    }

    // Appends a word that stands for this value.
    fn write(&self, alloc: Global, text: &mut String) -> Result<(), AllocError> {
        match self {
            Value::Element(element) => push_formed(text, print_elem(alloc, element)),
            Value::Polynomial(polynomial) => push_formed(
                text,
                print_poly_in_z(alloc, polynomial.inner().coefficients()),
            ),
            Value::Name(name) => append(text, name),
        }
    }
}

/// The values that the calls of a case give, in the order of the calls, and why the line that is read is refused.
#[derive(Drop)]
pub struct Values {
    list: Vec<Value>,
    halt: Option<Halt>,
}

impl Values {
    pub fn new(alloc: Global) -> Values {
        Values {
            list: Vec::new(alloc),
            halt: None,
        }
    }

    /// The line is refused; the first cause is told.
    pub fn refuse(&mut self, halt: Halt) {
        if self.halt.is_none() {
            self.halt = Some(halt);
        }
    }

    /// The line is badly written.
    pub fn cause(&mut self, text: &'static str) {
        self.refuse(Halt::Cause(text))
    }

    /// No memory is left.
    pub fn memory(&mut self) {
        self.refuse(Halt::Memory)
    }

    /// Whether the line is refused. That of the next line is not.
    pub fn refusal(&mut self) -> Result<(), Fault> {
        match self.halt.take() {
            None => Ok(()),
            Some(Halt::Cause(text)) => Err(Fault::Cause(text)),
            Some(Halt::Memory) => Err(Fault::Memory(AllocError)),
        }
    }

    fn add(&mut self, value: Value) {
        match self.list.push(value) {
            Ok(()) => {}
            Err(_) => self.memory(),
        }
    }

    pub fn name(&mut self, name: &'static str) {
        self.add(Value::Name(name))
    }

    pub fn element(&mut self, element: Elem) {
        self.add(Value::Element(element))
    }

    pub fn polynomial(&mut self, polynomial: Poly) {
        self.add(Value::Polynomial(polynomial))
    }

    /// The stop of a call.
    pub fn fail(&mut self, fail: Fail) {
        match fail {
            Fail::Overflow(op) => self.name(name_of(op)),
            Fail::Size => self.name("size"),
            Fail::Memory => self.memory(),
        }
    }

    /// The stop of a run.
    pub fn stop(&mut self, stop: Stop) {
        match stop {
            Stop::Overflow(op) => self.name(name_of(op)),
            Stop::Size => self.name("size"),
            Stop::Case(_) => self.name("case"),
            Stop::NotSound(constant) => {
                self.name("not-sound");
                self.element(constant)
            }
            Stop::Budget => self.name("budget"),
        }
    }

    /// An element, or the stop of its call.
    pub fn formed(&mut self, element: Result<Elem, Fail>) {
        match element {
            Ok(element) => self.element(element),
            Err(fail) => self.fail(fail),
        }
    }

    /// An element that stops for want of memory alone.
    pub fn copied(&mut self, element: Result<Elem, AllocError>) {
        match element {
            Ok(element) => self.element(element),
            Err(_) => self.memory(),
        }
    }

    /// A polynomial, or the stop of its call.
    pub fn formed_polynomial(&mut self, polynomial: Result<Poly, Fail>) {
        match polynomial {
            Ok(polynomial) => self.polynomial(polynomial),
            Err(fail) => self.fail(fail),
        }
    }

    /// A polynomial that stops for want of memory alone.
    pub fn copied_polynomial(&mut self, polynomial: Result<Poly, AllocError>) {
        match polynomial {
            Ok(polynomial) => self.polynomial(polynomial),
            Err(_) => self.memory(),
        }
    }

    /// Two polynomials, or the stop of their call.
    pub fn formed_pair(&mut self, pair: Result<(Poly, Poly), Fail>) {
        match pair {
            Ok((first, second)) => self.pair(first, second),
            Err(fail) => self.fail(fail),
        }
    }

    fn pair(&mut self, first: Poly, second: Poly) {
        self.polynomial(first);
        self.polynomial(second)
    }

    /// A polynomial that may be wanting, or the stop of its call.
    pub fn found(&mut self, polynomial: Result<Option<Poly>, Fail>) {
        match polynomial {
            Ok(Some(polynomial)) => self.polynomial(polynomial),
            Ok(None) => self.name("none"),
            Err(fail) => self.fail(fail),
        }
    }

    pub fn answer(&mut self, answer: bool) {
        if answer {
            self.name("yes")
        } else {
            self.name("no")
        }
    }

    pub fn number(&mut self, number: Frac) {
        self.element(Elem::num(number))
    }

    /// A whole number, with its sign.
    pub fn integer(&mut self, number: i16) {
        self.number(Frac::new(i128::from(number), 1))
    }

    /// A whole number.
    pub fn whole(&mut self, number: u64) {
        self.number(Frac::new(i128::from(number), 1))
    }

    /// Polynomials, and where they end.
    pub fn polynomials(&mut self, alloc: Global, polynomials: &[Poly]) {
        for polynomial in polynomials {
            self.copied_polynomial(polynomial.copy(alloc));
        }
        self.name("end")
    }

    /// Polynomials and where they end, or the stop of their call.
    pub fn formed_polynomials(&mut self, alloc: Global, polynomials: Result<PolyList, Fail>) {
        match polynomials {
            Ok(polynomials) => self.polynomials(alloc, polynomials.as_slice()),
            Err(fail) => self.fail(fail),
        }
    }

    /// Elements, or the stop of their call.
    pub fn formed_elements(&mut self, alloc: Global, elements: Result<ElemList, Fail>) {
        match elements {
            Ok(elements) => {
                for element in elements.as_slice() {
                    self.copied(element.copy(alloc));
                }
            }
            Err(fail) => self.fail(fail),
        }
    }

    /// The polynomial with these coefficients from exponent 0.
    pub fn coefficients(&mut self, coefficients: ElemList) {
        if are_coefficients(&coefficients) {
            self.copied_polynomial(Poly::of(coefficients))
        } else {
            self.cause("coefficients beyond the limits")
        }
    }

    fn copied_coefficients(&mut self, coefficients: Result<ElemList, AllocError>) {
        match coefficients {
            Ok(coefficients) => self.coefficients(coefficients),
            Err(_) => self.memory(),
        }
    }

    /// The normal and the special part, or how their run ends.
    pub fn split(&mut self, alloc: Global, run: Run<Split>) {
        match run {
            Run::Done(parts) => self.copied_split(parts.copy(alloc)),
            Run::Stopped(stop) => self.stop(stop),
            Run::Left => self.left(),
            Run::Memory => self.memory(),
        }
    }

    fn copied_split(&mut self, parts: Result<Split, AllocError>) {
        match parts {
            Ok(parts) => self.pair(parts.normal, parts.special),
            Err(_) => self.memory(),
        }
    }

    /// The reduced and the normal part, or how their run ends.
    pub fn canonical(&mut self, alloc: Global, run: Run<Canonical>) {
        match run {
            Run::Done(parts) => self.copied_canonical(parts.copy(alloc)),
            Run::Stopped(stop) => self.stop(stop),
            Run::Left => self.left(),
            Run::Memory => self.memory(),
        }
    }

    fn copied_canonical(&mut self, parts: Result<Canonical, AllocError>) {
        match parts {
            Ok(parts) => {
                self.element(parts.reduced);
                self.element(parts.normal)
            }
            Err(_) => self.memory(),
        }
    }

    /// The three elements of a reduction, or how its run ends.
    pub fn reduction(&mut self, alloc: Global, run: Run<Hermite>) {
        match run {
            Run::Done(reduction) => self.copied_reduction(reduction.copy(alloc)),
            Run::Stopped(stop) => self.stop(stop),
            Run::Left => self.left(),
            Run::Memory => self.memory(),
        }
    }

    fn copied_reduction(&mut self, reduction: Result<Hermite, AllocError>) {
        match reduction {
            Ok(reduction) => {
                self.element(reduction.g);
                self.element(reduction.h);
                self.element(reduction.rest)
            }
            Err(_) => self.memory(),
        }
    }

    /// What the residues are, or how their run ends.
    pub fn residues(&mut self, alloc: Global, run: Run<Residues>) {
        match run {
            Run::Done(residues) => self.residues_of(alloc, &residues),
            Run::Stopped(stop) => self.stop(stop),
            Run::Left => self.left(),
            Run::Memory => self.memory(),
        }
    }

    // R and S of each logarithm, and the sum of the residues; or the power and the trace by which they are not constant.
    fn residues_of(&mut self, alloc: Global, residues: &Residues) {
        match residues {
            Residues::Constant { logs, trace } => self.constant(alloc, logs.as_slice(), *trace),
            Residues::NotConstant { power, trace } => {
                self.whole(u64::from(*power));
                self.copied(trace.copy(alloc))
            }
        }
    }

    fn constant(&mut self, alloc: Global, logarithms: &[LogPart], sum: Frac) {
        for logarithm in logarithms {
            self.logarithm(alloc, logarithm);
        }
        self.number(sum)
    }

    fn logarithm(&mut self, alloc: Global, logarithm: &LogPart) {
        self.copied_coefficients(numbers(alloc, logarithm.poly.as_slice()));
        self.copied_coefficients(logarithm.arg.copy(alloc))
    }

    /// A run that was left.
    pub fn left(&mut self) {
        self.cause("a run that was left")
    }

    /// Whether words stand for these values, one for each.
    pub fn are_written(&self, alloc: Global, words: &str) -> bool {
        let mut words = words.split_whitespace();
        for value in &self.list {
            if !value.is_written(alloc, words.next()) {
                return false;
            }
        }
        words.next().is_none()
    }

    /// Words that stand for these values.
    pub fn text(&self, alloc: Global) -> Result<String, AllocError> {
        let mut text = String::new(alloc);
        for value in &self.list {
            value.write(alloc, &mut text)?;
        }
        Ok(text)
    }
}

// The elements that fractions are.
fn numbers(alloc: Global, fractions: &[Frac]) -> Result<ElemList, AllocError> {
    let mut numbers = ElemList::new(alloc);
    for fraction in fractions {
        numbers.push(Elem::num(*fraction))?;
    }
    Ok(numbers)
}
