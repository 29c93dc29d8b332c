//! A recovery unit keeps a unit of the compact state: what its calls make of it is what the steps of a tenant make of
//! that unit. These are laws alone, for every handler; the crate has no function. What both have in common stands in
//! `specs/Seen`, the statements in `specs/Laws`; each law is a lemma, which `proofs/Lib` names with its module.
#![tactic(auto)]
