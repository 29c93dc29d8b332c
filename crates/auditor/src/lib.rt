//! The audit of a book's tenant.
//!
//! - `audit_tenant` (`tenant_audit`): puts a tenant's seats, its certificate and what it released
//!   before `audit::check`. It finds no flaw, whatever the tenants' steps and the store's answers
//!   were.
//! - `audit_part` (`tenant_audit`): the same for each of many tenants, by the parts of the history
//!   that `parts_of` (`parts`) makes of it in one pass.
//! - `can_check` (`checkable`): whether `audit::check` may be asked of lists from elsewhere.
//!
//! `check` itself, and the line that tells an outcome, stand in `audit`, so that an auditor need read
//! nothing of the runtime.
//!
//! For a host that shows what it released to be right. A caller:
//!
//! ```
//! /// The outcome of the audit of a book's tenant.
//! pub(crate) fn audit_of(alloc: Global, book: &Books, name: &TenantName) -> Result<Verdict, Flaw> {
//!     audit_tenant(alloc, &Sample, book, name)
//! }
//! ```
#![tactic(auto)]

mod checkable;
mod parts;
mod tenant_audit;

pub use checkable::can_check;
pub use parts::{Parts, parts_of};
pub use tenant_audit::{audit_part, audit_tenant};
