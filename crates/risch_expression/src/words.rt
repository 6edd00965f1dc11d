//! The bytes at hand: what stands at their front is taken off, and the blanks behind it.

ghost use Rattle.std.specs.Prelude.{◌≡◌, ◌≤◌, ◌<◌, ◌^◌, ◌+◌, ◌-◌, ◌*◌, ℕ, cond, Some, None, List, length, IfOk, IfSome, MatchOption, option_map};
ghost use Rattle.std.specs.List.{prefix_len};
ghost use Rattle.risch_expression.specs.Words as spec;
ghost use Rattle.risch_expression.specs.Words.{after_blanks, after_byte, after_word, front_name, is_letter_or_digit};
ghost use Rattle.risch_expression.specs.Fault as fault;
ghost use Rattle.risch_expression.specs.Fault.{unexpected, fault_at};
ghost use Rattle.risch_expression.specs.Grammar.{number_found, wanted_number};
ghost use Rattle.risch_expression.specs.Taken.{Takes, TakesName, TakesNumber, TakesWanted, IsDigits};

use crate::fault::{Cause, SyntaxFault};
use std::marker::Model;

/// The most that a number may be.
pub const MOST_NUMBER: u128 = (1 << 127) - 1;

/// The bytes that are still to be read, fewer than 2^32. They begin past blanks.
#[derive(Drop)]
pub struct Words<'a> {
    rest: &'a [u8],
}

impl<'a> Model for Words<'a> {
    ghost use Rattle.std.specs.Prelude.{ℕ, List, ◌<◌, ◌^◌, length};

    ghost Value = { List ℕ };

    ghost view = { λ w. w.rest.now };

    ghost invariant = { λ w. length w.rest.now < 2 ^ 32 };
}

impl<'a> Words<'a> {
    /// The bytes without the blanks at their front.
    pub fn start(bytes: &'a [u8]) -> Words<'a>
        requires { length bytes.now < 2 ^ 32 }
        ensures { result ≡ after_blanks bytes.now }
    {
        Words {
            rest: past_blanks(bytes),
        }
    }

    /// The bytes that are still to be read.
    pub fn bytes(&self) -> &'a [u8]
        ensures value { result.now ≡ self.now }
        ensures small { length self.now < 2 ^ 32 }
    {
        self.rest
    }

    /// How many bytes are still to be read.
    pub fn left(&self) -> u32
        ensures { result ≡ length self.now }
    {
        self.rest.len() as u32
    }

    /// A cause at this place.
    pub fn fault(&self, cause: Cause) -> SyntaxFault
        ensures { result ≡ fault_at self.now cause }
    {
        SyntaxFault {
            left: self.left(),
            cause,
        }
    }

    /// The fault of a token that fits no rule, where so many parentheses more may be open.
    #[tactic(auto, unfolding(crate::specs::Fault::unexpected_cause))]
    pub fn unexpected(&self, open_left: u8) -> SyntaxFault
        ensures { result ≡ unexpected open_left self.now }
    {
        let cause = match self.rest.first() {
            None => Cause::End,
            Some(_) if is_wide(self.rest) => Cause::Wide,
            Some(b'(') if open_left == 0 => Cause::Deep,
            Some(_) => Cause::Byte,
        };
        self.fault(cause)
    }

    /// Takes the byte, if the bytes begin with it.
    #[tactic(auto, using(crate::proofs::Taking::after_byte_found, crate::proofs::Taking::after_byte_other, crate::proofs::Taking::after_byte_end))]
    pub fn take_byte(&mut self, byte: u8) -> bool
        ensures { Takes result (after_byte byte self.old) self.old self.new }
    {
        let Some((first, after)) = self.rest.split_first() else {
            return false;
        };
        if *first != byte {
            return false;
        }
        self.rest = past_blanks(after);
        true
    }

    /// Takes the word, if the bytes begin with it and no letter or digit follows it.
    #[tactic(auto, using(crate::proofs::Taking::after_word_found, crate::proofs::Taking::after_word_goes_on, crate::proofs::Taking::after_word_other))]
    pub fn take_word(&mut self, word: &[u8]) -> bool
        ensures { Takes result (after_word word.now self.old) self.old self.new }
    {
        let Some(after) = self.rest.strip_prefix(word) else {
            return false;
        };
        if goes_on(after) {
            return false;
        }
        self.rest = past_blanks(after);
        true
    }

    /// Takes the name, a letter and the letters and digits that follow it, if the bytes begin with one.
    #[tactic(auto, using(crate::proofs::Taking::name_other, crate::proofs::Taking::name_found))]
    pub fn take_name(&mut self) -> Option<&'a [u8]>
        ensures { TakesName (option_map (λ text. text.now) result) (spec.name self.old) self.old self.new }
    {
        if !begins_name(self.rest) {
            return None;
        }
        let (name, after) = self.rest.split_at(name_len(self.rest));
        self.rest = past_blanks(after);
        Some(name)
    }

    /// Takes the number, if the bytes begin with one. Above `most` it is the fault `above`, and above 2^127 - 1 it is `Wide`.
    #[tactic(auto, using(crate::proofs::Taking::number_none, crate::proofs::Taking::number_wide, crate::proofs::Taking::number_above, crate::proofs::Taking::number_value))]
    pub fn take_number(&mut self, most: u128, above: Cause) -> Result<Option<u128>, SyntaxFault>
        ensures found { TakesNumber result (number_found most above self.old) self.old self.new }
        ensures small { IfOk result (λ found. IfSome found (λ n. n ≤ most)) }
        ensures fits { IfOk result (λ found. IfSome found (λ n. n < 2 ^ 127)) }
    {
        match numeral(self.rest) {
            Digits::None => Ok(None),
            Digits::Wide => Err(self.fault(Cause::Wide)),
            Digits::Value(value, rest) => {
                if value > most {
                    return Err(self.fault(above));
                }
                self.rest = rest;
                Ok(Some(value))
            }
        }
    }

    /// Takes the number that has to stand here, where so many parentheses more may be open.
    #[tactic(auto, unfolding(crate::specs::Grammar::wanted_number))]
    pub fn want_number(
        &mut self,
        open_left: u8,
        most: u128,
        above: Cause,
    ) -> Result<u128, SyntaxFault>
        ensures found { TakesWanted result (wanted_number open_left most above self.old) self.old self.new }
        ensures small { IfOk result (λ n. n ≤ most) }
        ensures fits { IfOk result (λ n. n < 2 ^ 127) }
    {
        match self.take_number(most, above)? {
            Some(number) => Ok(number),
            None => Err(self.unexpected(open_left)),
        }
    }
}

// A blank is a space, a tab, or a byte 13 directly before byte 10.
fn is_blank(byte: u8, after: &[u8]) -> bool
    ensures { result ≡ spec.is_blank byte after.now }
{
    match byte {
        b' ' | b'\t' => true,
        b'\r' => after.starts_with(b"\n"),
        _ => false,
    }
}

// The bytes without the blanks at their front.
#[tactic(auto, using(crate::proofs::Taking::after_blanks_end, crate::proofs::Taking::after_blanks_more, crate::proofs::Taking::after_blanks_stop))]
fn past_blanks(bytes: &[u8]) -> &[u8]
    ensures value { result.now ≡ after_blanks bytes.now }
    ensures short { length result.now ≤ length bytes.now }
{
    let mut rest = bytes;
    while let Some((byte, after)) = rest.split_first() {
        if !is_blank(*byte, after) {
            return rest;
        }
        rest = after;
    }
    rest
}

// Whether the bytes begin with a letter or a digit.
fn goes_on(bytes: &[u8]) -> bool
    ensures { result ≡ spec.goes_on bytes.now }
{
    match bytes.first() {
        Some(byte) => byte.is_ascii_alphanumeric(),
        None => false,
    }
}

// Whether the bytes begin with a name.
#[tactic(auto, using(crate::proofs::Taking::begins_end))]
fn begins_name(bytes: &[u8]) -> bool
    ensures { spec.name bytes.now ≡ cond result (Some (front_name bytes.now)) None }
{
    match bytes.split_first() {
        Some((first, _)) => is_letter(*first),
        None => false,
    }
}

// How many letters and digits the bytes begin with.
fn name_len(bytes: &[u8]) -> usize
    ensures value { result ≡ prefix_len is_letter_or_digit bytes.now }
    ensures within { result ≤ length bytes.now }
{
    for (size, byte) in bytes.iter().enumerate() {
        if !byte.is_ascii_alphanumeric() {
            return size;
        }
    }
    bytes.len()
}

// Whether a byte is a letter.
fn is_letter(byte: u8) -> bool
    ensures { result ≡ spec.is_letter byte }
{
    byte.is_ascii_alphabetic()
}

// Whether a byte is a digit.
fn is_digit(byte: u8) -> bool
    ensures { result ≡ spec.is_digit byte }
{
    byte.is_ascii_digit()
}

// What the bytes begin with: no digit, a number above 2^127 - 1, or a number, with the bytes behind it.
enum Digits<'a> {
    None,
    Wide,
    Value(u128, &'a [u8]),
}

// The number at the front of the bytes.
#[tactic(auto, using(crate::proofs::Taking::numeral_end, crate::proofs::Taking::numeral_other, crate::proofs::Taking::numeral_found))]
fn numeral(bytes: &[u8]) -> Digits<'_>
    ensures { IsDigits result bytes.now }
{
    let Some((first, after)) = bytes.split_first() else {
        return Digits::None;
    };
    if !is_digit(*first) {
        return Digits::None;
    }
    number_from(*first - b'0', after)
}

// The number whose digits are this one and those at the front of the bytes.
fn number_from(first: u8, after: &[u8]) -> Digits<'_>
    ensures { (bytes : List ℕ) → spec.numeral bytes ≡ Some (spec.more_digits first after.now) → length after.now ≤ length bytes → IsDigits result bytes }
{
    match more_digits(u128::from(first), after) {
        Some((value, rest)) if value <= MOST_NUMBER => Digits::Value(value, rest),
        _ => Digits::Wide,
    }
}

// Whether a number above 2^127 - 1 stands at the front of the bytes.
fn is_wide(bytes: &[u8]) -> bool
    ensures { result ≡ fault.is_wide (spec.numeral bytes.now) }
{
    match numeral(bytes) {
        Digits::Wide => true,
        Digits::None | Digits::Value(_, _) => false,
    }
}

// The number with one digit more. There is none only if it is at least 2^128.
fn with_digit(value: u128, digit: u8) -> Option<u128>
    requires { 48 ≤ digit }
    ensures { MatchOption result (2 ^ 128 ≤ value * 10 + (digit - 48)) (λ n. n ≡ value * 10 + (digit - 48)) }
{
    value.checked_mul(10)?.checked_add(u128::from(digit - b'0'))
}

// The number with these digits after those of `first`, and the bytes behind it. There is none only if it is at least 2^128.
#[tactic(auto, using(crate::proofs::Taking::more_digits_end, crate::proofs::Taking::more_digits_more, crate::proofs::Taking::more_digits_stop, crate::proofs::Taking::more_digits_large))]
fn more_digits(first: u128, bytes: &[u8]) -> Option<(u128, &[u8])>
    ensures value { MatchOption result (2 ^ 128 ≤ (spec.more_digits first bytes.now).value)
        (λ p. spec.more_digits first bytes.now ≡ record { value = p.0; rest = p.1.now }) }
    ensures short { IfSome result (λ p. length p.1.now ≤ length bytes.now) }
{
    let mut value = first;
    let mut rest = bytes;
    while let Some((byte, after)) = rest.split_first() {
        if !is_digit(*byte) {
            return Some((value, past_blanks(rest)));
        }
        value = with_digit(value, *byte)?;
        rest = after;
    }
    Some((value, rest))
}
