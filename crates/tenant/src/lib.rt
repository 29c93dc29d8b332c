//! One tenant: its units, letters, table of rows and quotas, and of its history no more than its next steps need.
//!
//! What it promises to the crates above is `Tenant::open` and `Tenant::step`, by the relation `Stands` of
//! `specs/Stands`: for every world that the tenant stands for, a step gives the reply of the definitions and stands for
//! the world after it, and what the store said is honest. Nothing above looks behind that relation: another body that
//! meets these clauses can take this one's place.
//!
//! | step | its file | what it is by the definitions (`model`, `specs/Steps`) |
//! |---|---|---|
//! | `open` | `open` | `open_new` |
//! | `join` | `join` | `join` |
//! | `post` | `post` | `post` |
//! | `deliver` | `deliver` | `deliver` |
//! | `flush` | `flush` | `flush` |
//! | `checkpoint` | `checkpoints` | `checkpoint` |
//! | `kill` | `kill` | `kill` |
//! | `restart` | `restart` | `restart` |
//! | `notice` | `notice` | `notice` |
//! | `release` | `release` | `release` |
//! | `status` | `status` | `status` |
//!
//! - `tenant`: the struct, and what is read off it; `member`: one unit of it; `answer`: what a step is answered.
//! - `step`: which of these a step is, also by a turn that was worked elsewhere; `prepare`: the input of that turn.
//! - `receipts`: what a receipt makes (what refuses one: `unit_steps`, `refusals`); `returning`: a unit goes back;
//!   `forgetting`: what is firm for good is given up; `releasing`: outputs on their way out.
//! - `reads`, `certifies`, `kept`, `footprint`: what whoever stands above reads off a tenant.
//! - `laws`: what holds over time of the worlds that a tenant stands for.
//! - `TenantStep`, `Reply` and `Kept` are those of `model`.
//!
//! Contracts see the tenant as `TenantState` of `specs/Kept`. `specs/Represents` says which world that is over a
//! whole log, and what a step does whatever the log; `specs/Stands` says it over a log that may have forgotten
//! records, and `specs/Past` what the tenant keeps of its past: what the rules of `model`, `specs/Keeping`, leave.
//!
//! For the writer of another host that has tenants of its own; whoever wants all of them takes `book`. A caller:
//!
//! ```
//! /// The input of the turn that a step of any tenant now needs, if it needs one.
//! pub(crate) fn ask<H: Handler>(
//!     alloc: Global,
//!     handler: &H,
//!     tenants: &Tenants<H>,
//!     step: &Step,
//! ) -> Result<Option<Ask<H>>, NoMemory>
//!     ensures { IfOk result (λ a. (w : Option World) (records : List (Option Record))
//!         → StandsAt H.meaning (addressed step.now).0 (get bytes_eq tenants.now (addressed step.now).0) w records
//!         → a ≡ needs_at H.meaning w (addressed step.now).1) }
//! {
//!     let Some(tenant) = tenants.get(step.tenant()) else {
//!         return Ok(None);
//!     };
//!     let own_step = step.tenant_step()?;
//!     tenant.prepare(alloc, handler, &own_step)
//! }
//! ```
#![tactic(auto)]

mod answer;
mod certifies;
mod checkpoints;
mod deliver;
mod flush;
mod footprint;
mod forgetting;
mod join;
mod kept;
mod kill;
pub mod laws;
mod member;
mod notice;
mod open;
mod post;
mod prepare;
mod reads;
mod receipts;
mod release;
mod releasing;
mod restart;
mod returning;
mod status;
mod step;
mod tenant;

pub use answer::Answer;
pub use footprint::Footprint;
pub use member::Member;
pub use model::{Kept, Reply, TenantStep};
pub use tenant::Tenant;
