//! What the residues of an element are.

use risch_elem::Elem;
use risch_frac::Frac;
use risch_rootsum::LogList;

/// What the residues of an element a/d are.
#[derive(Drop)]
pub enum Residues {
    /// They are constant.
    Constant {
        /// For each square-free part R other than 1 of the polynomial of the residues the sum over its roots z of z·log S(z), or c·log U for R = z - c.
        logs: LogList,
        /// The sum of the residues.
        trace: Frac,
    },
    /// They are not constant: the trace of ρ^power is no fraction, and its derivative is not 0.
    NotConstant {
        /// From 1 to deg d.
        power: u16,
        trace: Elem,
    },
}
