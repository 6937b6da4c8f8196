//! How near estimates are to the exact entropy: definitions and proofs alone, in `specs/` and `proofs/`.

#![tactic(auto)]
