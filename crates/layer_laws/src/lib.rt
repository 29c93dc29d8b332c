//! What the layers compute, on the graph: laws alone, for every handler. The crate has no function.
//!
//! The contracts of `depvector`, `session`, `orphan`, `output_commit` and `volatile_log` speak of lists. These laws
//! say, by the same words, what those lists are of every world that a tenant can come to. Their statements stand in
//! `specs/Laws`; each is a lemma, which `proofs/Lib` names with its module. Beside them, `tenant::laws::vectors_tell`
//! says that `is_blind` and `is_orphan` of a past's vector are the definitions' tests of that past.
#![tactic(auto)]
