//! The logarithms by residues, as the rules on lists of coefficients form them, are those of the theory over the field below a level (Bronstein, Symbolic Integration I, sections 1.5, 2.5 and 5.6). It has no code of its own.
#![tactic(auto)]
