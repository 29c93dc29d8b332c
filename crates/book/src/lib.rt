//! All tenants: a host, and a book, which is a host that remembers.
//!
//! A `Host` runs the steps of any number of tenants over one store. It stores no history, and still
//! is the replay of one: for each tenant, what it keeps stands for the world that the tenant's own
//! entries make, the replies to the tenant are those that it would get alone, and the records of
//! the store are those that the entries acknowledged, but for those that were forgotten. A `Book`
//! is a host that keeps each step with its reply as an entry. Contracts see a host as `Hosted`, its
//! tenants and its log, and say what a step makes of each history that it is the replay of. They
//! see a book as a `Ledger`, its history and its log, and the replay stands in its invariant.
//!
//! - `Host::new` is the replay of the empty history. `Host::step` does a step, which it takes apart
//!   (`AddressedStep`): whichever book the host stood for, the step is entered there with the reply
//!   that is given, or there was no memory for it, and then nothing changed. `Host::prepare` and
//!   `step_with` are as those of a book, and `Host::tenants` and `kept` read what follows from the
//!   history. `Book::host` lends a book's host. A host keeps no text that was released
//!   (`KeepNoTexts`), since the replies have them.
//! - `Book::step`, `step_as`, `step_addressed` and `run` do steps. A step is entered with the reply that is given,
//!   or there was no memory for it, and then nothing changed. Both copies of a reply are made
//!   before the step has any effect.
//! - `Book::prepare` and `step_with` part a step from the working of its turn: the turn can be
//!   worked beside the book, and is taken only if the step still needs that very input.
//! - `Book::history` gives the entries. They are legal, and what the store said in them is honest.
//! - `Book::tenants`, `replies_of`, `released` and `rollbacks` read what the history says of a
//!   tenant, and `Book::kept` how much of a unit's past is kept.
//! - `isolated` is the law that tenants are isolated: the replies to a tenant and its world follow
//!   from its own entries alone, whatever the other tenants do.
//! - `Book::certificate`, `certificate_by` and `Book::seats` show what was released: a run without failures, for an
//!   auditor. `headline` says what follows of isolation and certificate together.
//! - `Step`, `Reply`, `Who`, `Entry` with `Said` and `End`, `Move` and `Kept` are those of `model`.
//!
//! The words of the contracts are in `specs/`: `Entries` says how a step is entered, `History` what a
//! history makes of tenants and log, `Standing` which books a host stands for, and `Past` what is
//! left of the past. The work of one step is `Host::answer_own`, and the lemma `entered` of
//! `proofs/Replays` shows that the host is the replay of the history with one entry more after it.
//!
//! For a program that does steps by calls, and for whoever relies on what was released. A caller:
//!
//! ```
//! /// A new book that did these steps, one by one.
//! fn book_after(alloc: Global, lines: &str) -> anyhow::Result<Books> {
//!     let mut book = new_book(alloc);
//!     for line in lines.lines() {
//!         let (who, step) = given(line)?;
//!         let _ = calls::step_as(&mut book, who, step_of(alloc, step)?);
//!     }
//!     Ok(book)
//! }
//! ```
#![tactic(auto)]

mod answer;
mod book;
mod committed;
mod host;

pub use book::{Book, headline, isolated};
pub use committed::Committed;
pub use host::Host;
pub use model::{AddressedStep, End, Entry, Kept, Move, Reply, Said, Step, Who};
pub use tenant::Footprint;
