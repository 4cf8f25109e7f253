//! Definitions and lemmas on lists of numbers and on searches, that know no crate of the repository. There is no code.
#![tactic(auto)]
