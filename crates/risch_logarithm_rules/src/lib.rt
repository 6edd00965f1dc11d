//! The rules of the logarithms of residues, as definitions in the order in which the values are formed (Bronstein, Symbolic Integration I, sections 2.5 and 5.6): the characteristic polynomial of the residues by Newton's identities (`specs/Newton.antt`), the arguments of the
//! logarithms from the primitive remainder sequence, and the logarithms (`specs/Logarithms.antt`). It has no code of its own.
#![tactic(auto)]
