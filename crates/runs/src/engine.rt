//! What answers the lines of a run.

ghost use Rattle.std.specs.Prelude.{◌≡◌, []};

use book::{Book, Host};
use codec::Portable;
use driver::{Done, Driver, drive, drive_host};
use handler::Handler;
use lines::{Counted, ServeFault, serve, serve_host};
use log::{Log, error};
use model::NoMemory;
use narration::{Hosted, serve_explained, tell_done, tell_driven, tell_waiting, total};
use reports::{Amount, Judged, NOTHING, audit_all, kept_by, sum, tell_amount};
use resumption::Begun;
use shards::{Shards, drive_shards, serve_shards};
use shared_log::{MemoryStore, Store};
use std::alloc::Global;
use std::io::{BufRead, Write};
use std::thread::Threads;
use terminal::Plural;
use words::{RunWords, Verbosity};

/// The status of a run that refused a line, where that is asked for.
const REFUSED: u8 = 3;

/// What steps are done on: a host, which stores no history, several of them for several cores, or a book where the
/// run asks for what needs one: audits, and the reasons of refusals.
enum Stepped<H: Handler, S: Store> {
    Host(Host<H, S>),
    Book(Book<H, S>),
    Shards(Shards<H, MemoryStore>),
    DrivenShards(Shards<H, MemoryStore>),
}

/// What answers lines, and carries on behind each where that is asked for. Shards have drivers of their own.
///
/// It isn't let go of by itself: the process ends with the run, and to let go of each text would take a fifth of its
/// time (`forget`).
pub(crate) struct Engine<H: Handler, S: Store> {
    stepped: Stepped<H, S>,
    driver: Option<Driver>,
}

impl<H: Handler + Send, S: Store> Engine<H, S> {
    /// The one that the run needs, over a store that acknowledged nothing yet.
    pub(crate) fn new(alloc: Global, handler: H, store: S, asked: &RunWords<'_>) -> Engine<H, S>
        requires { S.log store ≡ [] }
    {
        let stepped = if asked.audit || asked.explain {
            Stepped::Book(Book::new(alloc, handler, store))
        } else {
            Stepped::Host(Host::new(alloc, handler, store))
        };
        let driver = asked.drives.then(|| Driver::new(alloc));
        Engine { stepped, driver }
    }

    /// The host of all tenants, where there is one.
    pub(crate) fn host(&self) -> Option<&Host<H, S>> {
        match &self.stepped {
            Stepped::Host(host) => Some(host),
            Stepped::Book(book) => Some(book.host()),
            Stepped::Shards(_) | Stepped::DrivenShards(_) => None,
        }
    }

    /// What carries on, where something does.
    pub(crate) fn driver(&self) -> Option<&Driver> {
        self.driver.as_ref()
    }

    /// Leaves it as it is, for the process to end with.
    pub(crate) fn forget(self) {
        let Engine { stepped, driver } = self;
        if let Some(driver) = driver {
            driver.forget();
        }
        match stepped {
            Stepped::Host(host) => host.forget(),
            Stepped::Book(book) => book.forget(),
            Stepped::Shards(shards) | Stepped::DrivenShards(shards) => shards.forget(),
        }
    }

    /// What is kept of all tenants. `NoMemory` comes where there is none for their names.
    fn kept(&self) -> Result<Amount, NoMemory> {
        match &self.stepped {
            Stepped::Host(host) => kept_by(host),
            Stepped::Book(book) => kept_by(book.host()),
            Stepped::Shards(shards) | Stepped::DrivenShards(shards) => kept_by_all(shards),
        }
    }

    /// Answers each line, and tells how many there were. Where `explained` is a number, a book tells why each was
    /// refused, and so many lines came before the first.
    pub(crate) fn answer_all<T: Threads + Sync, L: Log, R: BufRead, W: Write>(
        &mut self,
        rt: &T,
        told: &L,
        alloc: Global,
        hosted: &Hosted<'_, H>,
        reader: &mut Counted<R>,
        writer: &mut Counted<W>,
        explained: Option<u64>,
    ) -> Result<u64, ServeFault> {
        match (&mut self.stepped, explained, &mut self.driver) {
            (Stepped::Host(host), _, None) => serve_host(alloc, reader, writer, host),
            (Stepped::Host(host), _, Some(driver)) => {
                drive_host(alloc, reader, writer, host, driver)
            }
            (Stepped::Book(book), None, None) => serve(alloc, reader, writer, book),
            (Stepped::Book(book), None, Some(driver)) => {
                drive(alloc, reader, writer, book, driver)
            }
            (Stepped::Book(book), Some(before), driver) => serve_explained(
                told,
                alloc,
                hosted,
                &mut reader.inner,
                &mut writer.inner,
                book,
                driver,
                before,
            ),
            (Stepped::Shards(shards), _, _) => serve_shards(rt, alloc, reader, writer, shards),
            (Stepped::DrivenShards(shards), _, _) => {
                drive_shards(rt, alloc, reader, writer, shards)
            }
        }
    }

    /// Tells what is kept, and audits, where that is asked for, after the last line. Tells the status to end with.
    pub(crate) fn end_well<L: Log, W: Write>(
        &self,
        told: &L,
        alloc: Global,
        hosted: &Hosted<'_, H>,
        writer: &mut Judged<W>,
        asked: &RunWords<'_>,
    ) -> u8 {
        if asked.verbosity == Verbosity::Verbose {
            tell_amount(told, self.kept());
        }
        match (&self.stepped, &self.driver) {
            (Stepped::DrivenShards(shards), _) => tell_driven_by_all(told, shards),
            (_, Some(driver)) => tell_driven(told, driver),
            (_, None) => {}
        }
        let audited = match &self.stepped {
            Stepped::Book(book) if asked.audit => audit_all(
                told,
                alloc,
                &hosted.handler,
                writer,
                book,
            ),
            _ => 0,
        };
        if audited == 0 && asked.strict && writer.refused > 0 {
            return refused(told, writer.refused);
        }
        audited
    }
}

/// Tells how many lines were refused, and the status to end with.
fn refused<L: Log>(told: &L, count: u64) -> u8 {
    error!(told; "{} refused", Plural(count, "line"));
    REFUSED
}

impl<H: Portable> Engine<H, MemoryStore> {
    /// One that goes on from a snapshot: with its host, and with what a driver remembers of it, where it is driven.
    pub(crate) fn going_on(begun: Begun<H>) -> Engine<H, MemoryStore> {
        let Begun {
            stand: _stand,
            host,
            driver,
        } = begun;
        Engine {
            stepped: Stepped::Host(host),
            driver,
        }
    }
}

impl<H: Handler + Clone + Send> Engine<H, MemoryStore> {
    /// One over stores in memory: on several cores of as many hosts. `NoMemory` comes where there is none for their
    /// list, or for a handler.
    pub(crate) fn in_memory(
        alloc: Global,
        handler: &H,
        cores: usize,
        asked: &RunWords<'_>,
    ) -> Result<Engine<H, MemoryStore>, NoMemory> {
        if cores > 1 {
            return Engine::on_cores(alloc, handler, cores, asked.drives);
        }
        Ok(Engine::new(alloc, handler.clone()?, MemoryStore::new(alloc), asked))
    }

    /// One of so many hosts, to which tenants are dealt: their steps are done side by side, and each is driven where
    /// that is asked for.
    fn on_cores(
        alloc: Global,
        handler: &H,
        cores: usize,
        drives: bool,
    ) -> Result<Engine<H, MemoryStore>, NoMemory> {
        let mut shards = Shards::new(alloc, one_host(alloc, handler)?)?;
        for _ in 1..cores {
            let added = match one_host(alloc, handler) {
                Ok(host) => shards.add(host),
                Err(fault) => Err(fault),
            };
            if added.is_err() {
                shards.forget();
                return Err(NoMemory);
            }
        }
        let stepped = if drives {
            Stepped::DrivenShards(shards)
        } else {
            Stepped::Shards(shards)
        };
        Ok(Engine {
            stepped,
            driver: None,
        })
    }
}

/// A host with no tenants, with a handler of its own.
fn one_host<H: Handler + Clone>(
    alloc: Global,
    handler: &H,
) -> Result<Host<H, MemoryStore>, NoMemory> {
    Ok(Host::new(alloc, handler.clone()?, MemoryStore::new(alloc)))
}

/// What is kept of all tenants of some hosts.
fn kept_by_all<H: Handler, S: Store>(shards: &Shards<H, S>) -> Result<Amount, NoMemory> {
    let mut all = NOTHING;
    for at in 0..shards.len() {
        match shards.host(at) {
            Some(host) => all = sum(all, kept_by(host)?),
            None => break,
        }
    }
    Ok(all)
}

/// Tells what the drivers of some hosts did together, and which letters still wait.
fn tell_driven_by_all<L: Log, H: Handler, S: Store>(told: &L, shards: &Shards<H, S>) {
    let mut done = Done::none();
    for at in 0..shards.len() {
        if let Some(driver) = shards.driver(at) {
            done = total(done, driver.done());
        }
    }
    tell_done(told, done);
    for at in 0..shards.len() {
        if let Some(driver) = shards.driver(at) {
            tell_waiting(told, driver);
        }
    }
}
