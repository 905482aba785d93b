//! Lemmas on lists that several crates need and std lacks. It has no code.
#![tactic(auto)]
