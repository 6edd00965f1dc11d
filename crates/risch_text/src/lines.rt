//! The lines of a file: the bytes at hand, and the line that they begin in.

ghost use Rattle.std.specs.Prelude.{◌≡◌, ◌+◌, ◌<◌, ◌≤◌, ◌^◌, ◌||◌, false, [], ◌∷◌, ◌++◌, length, IfOk, IfErr, OnOk};
ghost use Rattle.risch_frac.specs.Fraction as fraction;
ghost use Rattle.risch_expression.specs.Words as words;
ghost use Rattle.risch_expression.specs.Reading.{IsFaultOf};
ghost use Rattle.risch_text.specs.Lines as spec;
ghost use Rattle.risch_text.specs.Lines.{after_lines, behind_word, behind_byte, InFile};
ghost use Rattle.risch_text.specs.Reading.{Passes, Moves, MovesTo, TakesVariable, IsSum};

use risch_elem::NumberList;
use risch_expression::{
    Cause, MOST_NUMBER, MOST_OPEN, Names, Program, ReadFault, SyntaxFault, Words, read_sum,
};
use risch_frac::Frac;
use std::alloc::Global;
use std::marker::Model;

/// The most that a small number may be.
const MOST_SMALL_NUMBER: u128 = 65_535;

/// The bytes at hand, past blanks; the number of their line, from 1; and how many bytes were left at the first byte of that line.
#[derive(Drop)]
pub(crate) struct Lines<'a> {
    words: Words<'a>,
    line: u64,
    start: u32,
}

impl<'a> Model for Lines<'a> {
    ghost use Rattle.risch_text.specs.Lines.{Front};

    ghost Value = { Front };

    ghost view = { λ l. record { rest = l.words; line = l.line; start = l.start } };
}

impl<'a> Lines<'a> {
    /// The first token of a file.
    pub(crate) fn start(bytes: &'a [u8]) -> Lines<'a>
        requires { length bytes.now < 2 ^ 32 }
        ensures front { result ≡ spec.from_line 1 bytes.now }
        ensures in_file { InFile result }
    {
        Lines::from_line(1, bytes)
    }

    /// The first token from the first byte of a line on, past blank lines and comments.
    #[tactic(auto, using(crate::proofs::Fronts::after_lines_end, crate::proofs::Fronts::after_lines_next, crate::proofs::Fronts::after_lines_passed, crate::proofs::Fronts::after_lines_comment, crate::proofs::Fronts::after_lines_stop, crate::proofs::Fronts::in_file_is), unfolding(crate::specs::Lines::from_line))]
    fn from_line(mut line: u64, bytes: &'a [u8]) -> Lines<'a>
        requires small { length bytes.now < 2 ^ 32 }
        requires in_file { line + length bytes.now ≤ 2 ^ 32 }
        ensures front { result ≡ spec.from_line line bytes.now }
        ensures in_file { InFile result }
    {
        let mut rest = bytes;
        let mut start = bytes.len() as u32;
        let mut in_comment = false;
        while let Some((byte, after)) = rest.split_first() {
            if *byte == b'\n' {
                line += 1;
                start = after.len() as u32;
                in_comment = false;
            } else if !is_passed(in_comment, *byte, after) {
                if *byte != b'#' {
                    break;
                }
                in_comment = true;
            }
            rest = after;
        }
        Lines {
            words: Words::start(rest),
            line,
            start,
        }
    }

    /// How many bytes are left.
    pub(crate) fn left(&self) -> u32
        ensures { result ≡ length self.now.rest }
    {
        self.words.left()
    }

    /// The number of the line.
    pub(crate) fn line(&self) -> u64
        ensures { result ≡ self.now.line }
    {
        self.line
    }

    /// How many bytes were left at the first byte of the line.
    pub(crate) fn line_start(&self) -> u32
        ensures { result ≡ self.now.start }
    {
        self.start
    }

    /// Takes the word, if it stands here.
    #[tactic(auto, using(crate::proofs::Fronts::passes_word, crate::proofs::Fronts::in_file_word))]
    pub(crate) fn take_word(&mut self, word: &[u8]) -> bool
        requires { InFile self.old }
        ensures passes { Passes result (behind_word word.now self.old) self.old self.new }
        ensures in_file { InFile self.new }
    {
        self.words.take_word(word)
    }

    /// Takes the byte, if it stands here.
    #[tactic(auto, using(crate::proofs::Fronts::passes_byte, crate::proofs::Fronts::in_file_byte))]
    pub(crate) fn take_byte(&mut self, byte: u8) -> bool
        requires { InFile self.old }
        ensures passes { Passes result (behind_byte byte self.old) self.old self.new }
        ensures in_file { InFile self.new }
    {
        self.words.take_byte(byte)
    }

    /// The fault of a token that fits no rule outside of expressions.
    pub(crate) fn unexpected(&self) -> SyntaxFault
        ensures { result ≡ spec.unexpected_at self.now }
    {
        self.words.unexpected(MOST_OPEN)
    }

    /// The word has to stand here.
    #[tactic(auto, using(crate::proofs::Fronts::fixed_found, crate::proofs::Fronts::fixed_other))]
    pub(crate) fn word(&mut self, word: &[u8]) -> Result<(), SyntaxFault>
        requires { InFile self.old }
        ensures moves { Moves result (spec.fixed word.now self.old) self.new }
        ensures in_file { OnOk result (InFile self.new) }
    {
        if self.take_word(word) {
            Ok(())
        } else {
            Err(self.unexpected())
        }
    }

    /// The byte has to stand here.
    #[tactic(auto, using(crate::proofs::Fronts::symbol_found, crate::proofs::Fronts::symbol_other))]
    pub(crate) fn symbol(&mut self, byte: u8) -> Result<(), SyntaxFault>
        requires { InFile self.old }
        ensures moves { Moves result (spec.symbol byte self.old) self.new }
        ensures in_file { OnOk result (InFile self.new) }
    {
        if self.take_byte(byte) {
            Ok(())
        } else {
            Err(self.unexpected())
        }
    }

    /// The line has to end here. The next line is at hand then, or the end of the file.
    #[tactic(auto, using(crate::proofs::Fronts::line_end_last, crate::proofs::Fronts::line_end_next, crate::proofs::Fronts::line_end_other, crate::proofs::Fronts::line_in_file))]
    pub(crate) fn line_end(&mut self) -> Result<(), SyntaxFault>
        requires { InFile self.old }
        ensures moves { Moves result (spec.line_end self.old) self.new }
        ensures in_file { OnOk result (InFile self.new) }
    {
        match self.words.bytes().split_first() {
            None => Ok(()),
            Some((b'\n', after)) => {
                *self = Lines::from_line(self.line + 1, after);
                Ok(())
            }
            Some(_) => Err(self.unexpected()),
        }
    }

    /// The number of at most 2^127 - 1 that has to stand here.
    #[tactic(auto, using(crate::proofs::Fronts::number_read, crate::proofs::Fronts::number_fault, crate::proofs::Fronts::number_in_file))]
    pub(crate) fn number(&mut self) -> Result<Frac, SyntaxFault>
        requires { InFile self.old }
        ensures moves { MovesTo result (spec.number_of self.old) self.new }
        ensures in_file { OnOk result (InFile self.new) }
    {
        let number = self.words.want_number(MOST_OPEN, MOST_NUMBER, Cause::Wide)?;
        Ok(whole(number))
    }

    /// The number of at most 65,535 that has to stand here.
    #[tactic(auto, using(crate::proofs::Fronts::small_number_read, crate::proofs::Fronts::small_number_fault, crate::proofs::Fronts::small_number_in_file))]
    pub(crate) fn small_number(&mut self) -> Result<u16, SyntaxFault>
        requires { InFile self.old }
        ensures moves { MovesTo result (spec.small_number_of self.old) self.new }
        ensures in_file { OnOk result (InFile self.new) }
    {
        let number = self
            .words
            .want_number(MOST_OPEN, MOST_SMALL_NUMBER, Cause::Wide)?;
        Ok(number as u16)
    }

    /// The number of the variable that has to be named here: x, or one of so many monomials.
    pub(crate) fn variable(&mut self, monomials: u8) -> Result<u8, SyntaxFault>
        requires { InFile self.old }
        ensures moves { MovesTo result (spec.variable_of monomials self.old) self.new }
        ensures low { IfOk result (λ level. level ≤ monomials) }
        ensures in_file { OnOk result (InFile self.new) }
    {
        take_variable(&mut self.words, monomials)
    }

    /// The steps of the expression over these names that has to stand here.
    #[tactic(auto, using(crate::proofs::Fronts::sum_read, crate::proofs::Fronts::sum_fault, crate::proofs::Fronts::sum_in_file))]
    pub(crate) fn sum(&mut self, alloc: Global, names: Names) -> Result<Program, ReadFault>
        requires { InFile self.old }
        ensures read { IfOk result (λ program. IsSum names (spec.sum_of names self.old) program self.new) }
        ensures fault { IfErr result (λ fault. IsFaultOf fault (spec.sum_of names self.old)) }
        ensures in_file { OnOk result (InFile self.new) }
    {
        let mut program = Program::new(alloc);
        read_sum(&mut self.words, &mut program, names)?;
        Ok(program)
    }

    /// A line of this word alone.
    #[tactic(auto, unfolding(crate::specs::Lines::bare_line))]
    pub(crate) fn bare_line(&mut self, word: &[u8]) -> Result<(), SyntaxFault>
        requires { InFile self.old }
        ensures moves { Moves result (spec.bare_line word.now self.old) self.new }
        ensures in_file { OnOk result (InFile self.new) }
    {
        self.word(word)?;
        self.line_end()
    }

    /// A line of this word and an expression: the steps of the expression.
    pub(crate) fn expression_line(
        &mut self,
        alloc: Global,
        word: &[u8],
        names: Names,
    ) -> Result<Program, ReadFault>
        requires { InFile self.old }
        ensures read { IfOk result (λ program. IsSum names (spec.expression_line word.now names self.old) program self.new) }
        ensures fault { IfErr result (λ fault. IsFaultOf fault (spec.expression_line word.now names self.old)) }
        ensures in_file { OnOk result (InFile self.new) }
    {
        self.word(word)?;
        let program = self.sum(alloc, names)?;
        self.line_end()?;
        Ok(program)
    }

    /// A line of this word and an expression, whose number is put behind those of the lines above.
    pub(crate) fn numbered_line(
        &mut self,
        alloc: Global,
        word: &[u8],
        names: Names,
        numbers: &mut NumberList,
    ) -> Result<Program, ReadFault>
        requires in_file { InFile self.old }
        requires some { 0 < length word.now }
        ensures read { IfOk result (λ program. IsSum names (spec.expression_line word.now names self.old) program self.new) }
        ensures numbered { OnOk result (numbers.new ≡ numbers.old ++ self.old.line ∷ []) }
        ensures fault { IfErr result (λ fault. IsFaultOf fault (spec.expression_line word.now names self.old)) }
        ensures in_file { OnOk result (InFile self.new) }
    {
        let line = self.line();
        let program = self.expression_line(alloc, word, names)?;
        numbers.push(line as u32)?;
        Ok(program)
    }

    /// Nothing may stand here any more.
    #[tactic(auto, unfolding(crate::specs::Lines::nothing))]
    pub(crate) fn finish(&self) -> Result<(), SyntaxFault>
        ensures { Moves result (spec.nothing self.now) self.now }
    {
        if self.words.left() > 0 {
            return Err(self.words.fault(Cause::Trailing));
        }
        Ok(())
    }
}

// The number of the variable that has to be named at the front of the bytes: x, or one of so many monomials.
#[tactic(auto, using(crate::proofs::Fronts::named_low), unfolding(crate::specs::Lines::wanted_variable))]
fn take_variable(words: &mut Words<'_>, monomials: u8) -> Result<u8, SyntaxFault>
    ensures takes { TakesVariable result (spec.wanted_variable monomials words.old) words.new }
    ensures low { IfOk result (λ level. level ≤ monomials) }
{
    let unknown = words.fault(Cause::Name);
    let Some(name) = words.take_name() else {
        return Err(words.unexpected(MOST_OPEN));
    };
    let names = Names {
        monomials,
        with_z: false,
    };
    names.variable(name).ok_or(unknown)
}

// Whether a byte other than byte 10 is passed over: each byte of a comment, and else a blank, which is a space, a tab, or a byte 13 directly before byte 10.
fn is_passed(in_comment: bool, byte: u8, after: &[u8]) -> bool
    ensures { result ≡ (in_comment || words.is_blank byte after.now) }
{
    match byte {
        b' ' | b'\t' => true,
        b'\r' => in_comment || after.starts_with(b"\n"),
        _ => in_comment,
    }
}

// The whole number n.
#[tactic(auto, using(risch_expression::proofs::Numbers::quotient_one))]
fn whole(n: u128) -> Frac
    requires { n < 2 ^ 127 }
    ensures { result ≡ fraction.whole n }
{
    Frac::new(n as i128, 1)
}
