//! The grammar of expressions: one function for each rule. A rule reads the expression at the front of the bytes at hand and appends its steps to the program.

ghost use Rattle.std.specs.Prelude.{◌≡◌, ◌^◌, ◌<◌, if◌then◌else◌, List, [], ◌∷◌, ◌++◌, true, OnOk, IfOk, IfErr};
ghost use Rattle.risch_frac.specs.Fraction as fraction;
ghost use Rattle.risch_expression.specs.declared.fault.ReadFault.TheVariants.{Memory};
ghost use Rattle.risch_expression.specs.Words.{after_byte};
ghost use Rattle.risch_expression.specs.Tree.{Tree};
ghost use Rattle.risch_expression.specs.Program.{steps};
ghost use Rattle.risch_expression.specs.Grammar as grammar;
ghost use Rattle.risch_expression.specs.Grammar.{atom_in, power_in, term_in, sum_in, first_term, with_exponent, expression};
ghost use Rattle.risch_expression.specs.Taken.{TakesSign};
ghost use Rattle.risch_expression.specs.Reading.{IsParsedOver, IsFaultOf, Reads, ReadsOr, ReadsOpening, ReadsClosing, name_or, number_or};

use crate::fault::{Cause, ReadFault};
use crate::names::Names;
use crate::program::{Operation, Program, Step};
use crate::words::{MOST_NUMBER, Words};
use risch_frac::Frac;

/// The number of parentheses that may be open at once in an expression.
pub const MOST_OPEN: u8 = 64;

/// The most that an exponent may be.
const MOST_EXPONENT: u128 = 9999;

/// The whole number n.
#[tactic(auto, using(crate::proofs::Numbers::quotient_one))]
fn whole(n: u128) -> Frac
    requires { n < 2 ^ 127 }
    ensures { result ≡ fraction.whole n }
{
    Frac::new(n as i128, 1)
}

/// Takes `+` or `-`, the sign between two terms.
#[tactic(auto, unfolding(crate::specs::Grammar::sum_sign))]
fn sum_sign(words: &mut Words<'_>) -> Option<Operation>
    ensures { TakesSign result (grammar.sum_sign words.old) words.old words.new }
{
    if words.take_byte(b'+') {
        return Some(Operation::Sum);
    }
    if words.take_byte(b'-') {
        return Some(Operation::Difference);
    }
    None
}

/// Takes `*` or `/`, the sign between two powers.
#[tactic(auto, unfolding(crate::specs::Grammar::product_sign))]
fn product_sign(words: &mut Words<'_>) -> Option<Operation>
    ensures { TakesSign result (grammar.product_sign words.old) words.old words.new }
{
    let left = words.left();
    if words.take_byte(b'*') {
        return Some(Operation::Product);
    }
    if words.take_byte(b'/') {
        return Some(Operation::Quotient(left));
    }
    None
}

/// Appends a step.
fn write(program: &mut Program, step: Step) -> Result<(), ReadFault>
    ensures written { OnOk result (program.new ≡ program.old ++ step ∷ []) }
    ensures fault { IfErr result (λ fault. fault ≡ Memory) }
{
    program.push(step)?;
    Ok(())
}

/// Appends the step of an atom that is read.
fn write_atom(program: &mut Program, step: Step) -> Result<bool, ReadFault>
    ensures written { IfOk result (λ read. (read ≡ true) × (program.new ≡ program.old ++ step ∷ [])) }
    ensures fault { IfErr result (λ fault. fault ≡ Memory) }
{
    write(program, step)?;
    Ok(true)
}

/// Appends a negation, where a `-` stands before the operand.
fn write_sign(program: &mut Program, minus: bool) -> Result<(), ReadFault>
    ensures written { OnOk result (program.new ≡ program.old ++ (if minus then Step.Negated ∷ [] else [])) }
    ensures fault { IfErr result (λ fault. fault ≡ Memory) }
{
    if minus {
        return write(program, Step::Negated);
    }
    Ok(())
}

/// Reads a known name, if a name stands there.
#[tactic(auto, using(crate::proofs::Atoms::name_read, crate::proofs::Atoms::name_other, crate::proofs::Atoms::name_unknown))]
fn read_name(words: &mut Words<'_>, program: &mut Program, names: Names) -> Result<bool, ReadFault>
    ensures { ReadsOr result (name_or names words.old) program.old program.new words.old words.new }
{
    let unknown = words.fault(Cause::Name);
    let Some(name) = words.take_name() else {
        return Ok(false);
    };
    match names.step(name) {
        Some(step) => write_atom(program, step),
        None => Err(ReadFault::Syntax(unknown)),
    }
}

/// Reads a number of at most 2^127 - 1 or a known name, if one stands there.
#[tactic(auto, using(crate::proofs::Atoms::number_read, crate::proofs::Atoms::number_other, crate::proofs::Atoms::number_wide))]
fn read_leaf(words: &mut Words<'_>, program: &mut Program, names: Names) -> Result<bool, ReadFault>
    ensures { ReadsOr result (number_or names words.old) program.old program.new words.old words.new }
{
    match words.take_number(MOST_NUMBER, Cause::Wide)? {
        Some(number) => write_atom(program, Step::Number(whole(number))),
        None => read_name(words, program, names),
    }
}

/// Reads the exponent behind an atom, if `^` stands there: a number of at most 9999.
#[tactic(auto, using(crate::proofs::Rules::exponent_other, crate::proofs::Rules::exponent_fault, crate::proofs::Rules::exponent_read))]
fn read_exponent(
    words: &mut Words<'_>,
    program: &mut Program,
    open_left: u8,
) -> Result<(), ReadFault>
    ensures { (base : Tree) (before : List Step) → program.old ≡ before ++ steps base →
        Reads result (with_exponent open_left (record { tree = base; rest = words.old }) (after_byte 94 words.old)) before program.new words.new }
{
    if !words.take_byte(b'^') {
        return Ok(());
    }
    let exponent = words.want_number(open_left, MOST_EXPONENT, Cause::Exponent)?;
    write(program, Step::Raised(exponent as u16))
}

/// Reads `(`, where at most `open_left` parentheses may be open, and gives how many more may be open behind it.
#[tactic(auto, using(crate::proofs::Rules::parenthesized_other, crate::proofs::Rules::parenthesized_deep))]
fn read_opening(words: &mut Words<'_>, open_left: u8) -> Result<u8, ReadFault>
    ensures { ReadsOpening result open_left words.old words.new }
{
    if open_left == 0 || !words.take_byte(b'(') {
        return Err(ReadFault::Syntax(words.unexpected(open_left)));
    }
    Ok(open_left - 1)
}

/// Reads `)`, where so many parentheses more may be open.
fn read_closing(words: &mut Words<'_>, open_left: u8) -> Result<(), ReadFault>
    ensures { ReadsClosing result open_left words.old words.new }
{
    if !words.take_byte(b')') {
        return Err(ReadFault::Syntax(words.unexpected(open_left)));
    }
    Ok(())
}

/// Reads an expression and appends its steps: a sum in which at most 64 parentheses are open at once, with the numbers and names that may stand in it.
#[tactic(auto, using(crate::proofs::KnownNames::expression_parsed, crate::proofs::KnownNames::expression_fault))]
pub fn read_sum(words: &mut Words<'_>, program: &mut Program, names: Names) -> Result<(), ReadFault>
    ensures parsed { OnOk result (IsParsedOver names (expression names words.old) program.old program.new words.new) }
    ensures fault { IfErr result (λ fault. IsFaultOf fault (expression names words.old)) }
{
    sum(words, program, names, MOST_OPEN)
}

/// A sum: an optional `-`, a term, then any number of `+` or `-` each with a term. At most `open_left` parentheses may be open in it at once.
#[cycle(grammar)]
#[tactic(auto, using(crate::proofs::Rules::sum_fault, crate::proofs::Chains::joined_done, crate::proofs::Chains::joined_end, crate::proofs::Chains::joined_fault))]
fn sum(
    words: &mut Words<'_>,
    program: &mut Program,
    names: Names,
    open_left: u8,
) -> Result<(), ReadFault>
    ensures { Reads result (sum_in names open_left words.old) program.old program.new words.new }
{
    first_term(words, program, names, open_left)?;
    for _turn in 0..words.left() {
        let Some(operation) = sum_sign(words) else {
            return Ok(());
        };
        term(words, program, names, open_left)?;
        write(program, Step::Joined(operation))?;
    }
    Ok(())
}

/// The first term of a sum, which a `-` before it negates.
#[cycle(grammar)]
#[tactic(auto, using(crate::proofs::Rules::first_term_read, crate::proofs::Rules::first_term_fault))]
fn first_term(
    words: &mut Words<'_>,
    program: &mut Program,
    names: Names,
    open_left: u8,
) -> Result<(), ReadFault>
    ensures { Reads result (grammar.first_term (term_in names open_left) words.old (after_byte 45 words.old)) program.old program.new words.new }
{
    let minus = words.take_byte(b'-');
    term(words, program, names, open_left)?;
    write_sign(program, minus)
}

/// A term: a power, then any number of `*` or `/` each with a power.
#[cycle(grammar)]
#[tactic(auto, using(crate::proofs::Rules::term_fault, crate::proofs::Chains::joined_done, crate::proofs::Chains::joined_end, crate::proofs::Chains::joined_fault))]
fn term(
    words: &mut Words<'_>,
    program: &mut Program,
    names: Names,
    open_left: u8,
) -> Result<(), ReadFault>
    ensures { Reads result (term_in names open_left words.old) program.old program.new words.new }
{
    power(words, program, names, open_left)?;
    for _turn in 0..words.left() {
        let Some(operation) = product_sign(words) else {
            return Ok(());
        };
        power(words, program, names, open_left)?;
        write(program, Step::Joined(operation))?;
    }
    Ok(())
}

/// A power: an atom, or an atom, `^` and a number of at most 9999.
#[cycle(grammar)]
#[tactic(auto, using(crate::proofs::Rules::power_read, crate::proofs::Rules::power_fault))]
fn power(
    words: &mut Words<'_>,
    program: &mut Program,
    names: Names,
    open_left: u8,
) -> Result<(), ReadFault>
    ensures { Reads result (power_in names open_left words.old) program.old program.new words.new }
{
    atom(words, program, names, open_left)?;
    read_exponent(words, program, open_left)
}

/// An atom: a number of at most 2^127 - 1, a known name, or what stands in parentheses.
#[cycle(grammar)]
#[tactic(auto, using(crate::proofs::Rules::atom_found, crate::proofs::Rules::atom_fault, crate::proofs::Rules::atom_parenthesized))]
fn atom(
    words: &mut Words<'_>,
    program: &mut Program,
    names: Names,
    open_left: u8,
) -> Result<(), ReadFault>
    ensures { Reads result (atom_in names open_left words.old) program.old program.new words.new }
{
    if read_leaf(words, program, names)? {
        return Ok(());
    }
    parenthesized(words, program, names, open_left)
}

/// A sum in parentheses. With this one, at most `open_left` parentheses may be open at once.
#[cycle(grammar)]
#[tactic(auto, using(crate::proofs::Rules::parenthesized_read, crate::proofs::Rules::parenthesized_fault))]
fn parenthesized(
    words: &mut Words<'_>,
    program: &mut Program,
    names: Names,
    open_left: u8,
) -> Result<(), ReadFault>
    ensures { Reads result (grammar.parenthesized names open_left words.old) program.old program.new words.new }
{
    let inside = read_opening(words, open_left)?;
    sum(words, program, names, inside)?;
    read_closing(words, inside)
}
