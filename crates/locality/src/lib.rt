//! How far a transform reaches: definitions and proofs alone, in `specs/` and `proofs/`.

#![tactic(auto)]
