//! What is printed is read as the same.
//!
//! The text that `risch_cert` prints of a certificate, behind the file of the problem that it answers, is read by `risch_text` as that problem with that certificate. A reader can only
//! stop on the way, where a number overflows or a size is met while a value is formed again. The printing and the reading are the definitions of those crates. The calls do nothing; their
//! contracts are the laws.
#![tactic(auto)]

ghost use Rattle.risch_round_trip.specs.RoundTrip as spec;

/// For a file that is read as a problem and whose last line is ended, and a certificate of an integral or a refutation over the tower of that problem: the file with the printed certificate behind it is
/// read as that problem with that certificate, the lines of which are numbered on from those of the file, or the reading stops with an overflow or a size.
///
/// The part of the certificate, the coefficients of the polynomials in it, and the rest and the trace of a refutation are in normal form; the level of a refutation is one of the tower. Of each logarithm R is monic, of degree from 1 to 255, and S has a smaller degree and a
/// last coefficient other than 0.
#[tactic(auto, using(crate::proofs::RoundTrip::printed_is_read))]
pub fn printed_is_read()
    ensures { spec.printed_is_read }
{}

/// Where a certificate has the form that `risch_text` keeps of it, what the law asks for is that its part and its fractions are in normal form.
///
/// So the law is about every certificate that is read, and about every integral whose logarithms have that form.
#[tactic(auto, using(crate::proofs::Forms::form_is_printable))]
pub fn form_is_printable()
    ensures { spec.form_is_printable }
{}

/// The same of a refutation: its rest and its trace are to be in normal form too.
#[tactic(auto, using(crate::proofs::Forms::chain_form_is_printable))]
pub fn chain_form_is_printable()
    ensures { spec.chain_form_is_printable }
{}
