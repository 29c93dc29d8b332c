//! Tests of the small crates: each public call once on its happy path, and what no clause says.
//!
//! They stand in one crate since a crate with tests is proved twice. The larger crates are called by the rows of `rows`
//! and `bench_rollback`, which are programs over data, and by what is put to the built program.
#![tactic(auto)]

pub mod callers;
#[cfg(test)]
mod checkpoint_calls;
#[cfg(test)]
mod depvector_calls;
#[cfg(test)]
mod handler_calls;
#[cfg(test)]
mod ident_calls;
#[cfg(test)]
mod incarnation_calls;
#[cfg(test)]
mod letters_calls;
#[cfg(test)]
mod orphan_calls;
#[cfg(test)]
mod output_commit_calls;
#[cfg(test)]
mod receipts;
#[cfg(test)]
mod session_calls;
#[cfg(test)]
mod shared_log_calls;
#[cfg(test)]
mod spent_letters_calls;
#[cfg(test)]
mod stable_log_calls;
#[cfg(test)]
mod volatile_log_calls;
#[cfg(test)]
mod written_calls;
