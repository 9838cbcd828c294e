//! Lemmas on truth values and lists that the proofs of several crates cite, and that std doesn't have.
//!
//! Nothing here speaks of the Asset Administration Shell or of JSON, and no contract cites it. A lemma that the proofs of
//! one crate alone cite stands in that crate.

#![tactic(auto)]
