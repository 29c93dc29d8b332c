//! Bytes that go out whole, or as a beginning of them.
//!
//! - `put_all`: writes all of some bytes. After a failure a beginning of them is written.
//! - `flush_all`: flushes what was written.
//! - `is_interrupted`: whether a call was interrupted. Both make such a call again.
//!
//! `specs/Beginnings` says what a beginning is.
//!
//! For a store or a server whose bytes must be out whole. A caller:
//!
//! ```
//! /// Writes these bytes. `Write` comes only where the writer failed; a beginning of them may be written then.
//! pub fn put_bytes<W: Write>(writer: &mut Counted<W>, bytes: &[u8]) -> Result<(), ServeFault>
//!     ensures ok { OnOk result (Appends (W.contents writer.old.inner) (W.contents writer.new.inner) bytes.now) }
//!     ensures err { OnErr result
//!         (AppendsBeginning (W.contents writer.old.inner) (W.contents writer.new.inner) bytes.now) }
//!     ensures fault { IfErr result (λ e. (e ≡ ServeFault.Write) × HasRisen writer.old.failed writer.new.failed) }
//!     ensures same { OnOk result (writer.new.failed ≡ writer.old.failed) }
//! {
//!     match put_all(&mut writer.inner, bytes) {
//!         Ok(()) => Ok(()),
//!         Err(_) => {
//!             writer.count_failure();
//!             Err(ServeFault::Write)
//!         }
//!     }
//! }
//! ```
#![tactic(auto)]

mod whole;

pub use whole::{Failed, flush_all, is_interrupted, put_all};
