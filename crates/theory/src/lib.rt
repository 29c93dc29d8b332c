//! The laws of one tenant: their statements, and their proofs from the definitions.
//!
//! `specs/Laws` states each law of every world that a tenant can come to. The crate has no code: what it gives
//! are theorems, one for each law. These are the files of `proofs/`, each after those that it needs.
//!
//! | File | What it gives |
//! |---|---|
//! | `ListLaws` | lists that are looked up by place, and tests on them |
//! | `Pasts` | the computed past is the relation `DependsOn` |
//! | `Changes` | `Change`: the eight ways in which a step leaves a world, and `step_changes` |
//! | `Sending` | letters were sent by nodes that were made; the turn of each node (`turns_are`) |
//! | `Invariants` | `Sound`: paths are chains of predecessors, none of whose nodes is lost |
//! | `Firm` | a change keeps firm nodes firm |
//! | `RowLaws` | what the table of rows loses and tells of |
//! | `Chain` | `Chain`: what holds of all nodes and rows together; the chain law from it (`chain_law`) |
//! | `ChainKept` | a change keeps the chain |
//! | `Vectors` | greatest marks; an orphan shows in those of its past |
//! | `Simulation` | what one receipt, beginning or join does to a run without failures |
//! | `Fronts` | the firm front of each path |
//! | `Counts` | `Counted`: which nodes are beginnings, how many units are before each node, and where it sits |
//! | `LettersExact` | lines; what each letter tells of its sender (`letters_sent`); the text of each send |
//! | `Numbers` | `Numbered`: the number of a received letter is the count of receipts along its receiver's line |
//! | `CertificateRun` | the next place of the world is the next move of the certificate, or none (`place_step`) |
//! | `Released` | what is released begins the outputs of the firm front |
//! | `Certificate` | `Invariant`: all that holds of every world; laws `certificate_law`, `released_are_firm` |
//! | `ReleasedGrow` | law `released_grow` |
//! | `HeldCanGo` | laws `release_is_whole`, `held_can_go`, `not_firm_can_go` |
//! | `VectorLaw` | law `vectors_tell` |
//! | `WithoutOptimism` | laws `no_orphans`, `no_notice_appends` |
//! | `Chains` | laws `firm_stays`, `paths_kept`, `chains`, `forks_are_lost` |
//! | `Courses` | laws `stays_open`, `courses_reach`, `released_stay` |
//! | `VectorJoin` | law `vectors_join` |
//! | `FirmVector` | laws `firm_by_vector`, `unstable_by_vector` |
//! | `States` | laws `states_are_folds`, `numbers_along_paths` |
//! | `Limits` | law `stays_within` |
#![tactic(auto)]
