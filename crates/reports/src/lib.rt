//! What is told behind the last reply, for any handler.
//!
//! - `Judged`: a writer of replies that counts those which refuse;
//! - `audit_all` (`audits`): the audit lines, thin over `auditor::audit_part`, which carries its own theorem;
//! - `tell_kept` (`kept`): how much is kept of the past by a host; `kept_by`, `sum` and `tell_amount`: by several.
//!
//! For `runs` and `feed_runs`. A caller:
//!
//! ```
//! tell_kept(told, book, asked.verbosity);
//! audit_all(told, alloc, &handler, writer, book)
//! ```
#![tactic(auto)]

mod audits;
mod judged;
mod kept;

pub use audits::audit_all;
pub use judged::Judged;
pub use kept::{Amount, NOTHING, kept_by, sum, tell_amount, tell_kept};
