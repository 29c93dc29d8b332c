//! Values as bytes, and back.
//!
//! - `Coded`: a value that can be written as bytes; `Portable`: a handler whose states can.
//! - `encode_list`, `decode_list`, `encode_vec`, `encode_bytes`, `decode_bytes`: lists and bytes, of which other values
//!   are made; `encode_letters`, `decode_letters`: those of a tenant.
//! - `Input`: bytes that are left to be decoded. `DecodeFault`: why they were not.
//!
//! Numbers, options, pairs, texts, the names and records of `model` and the values of the layers are coded here.
//! Contracts see a value's bytes by a `Code`, with those that follow behind them (`specs/Codes`, `specs/Layers`): what
//! was written is read back equal, since no two values that fit have the same bytes.
#![tactic(auto)]

mod coded;
mod containers;
mod counts;
mod fault;
mod input;
mod letters;
mod names;
mod numbers;
mod outputs;
mod portable;
mod records;
mod sample;
mod spent;
mod tables;
mod texts;
mod vectors;

pub use coded::Coded;
pub use containers::{decode_list, encode_list, encode_vec, put};
pub use fault::DecodeFault;
pub use input::Input;
pub use letters::{decode_letters, encode_letters};
pub use portable::Portable;
pub use texts::{decode_bytes, encode_bytes};
