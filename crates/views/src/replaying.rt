//! The lines that are looked at, stepped anew.

ghost use Rattle.std.specs.Prelude.{◌≡◌, []};

use book::Book;
use driver::{Driver, drive};
use files::{Told, read_journal};
use handler::Handler;
use lines::{Counted, ServeFault, serve};
use log::{Log, error};
use shared_log::Store;
use std::alloc::Global;
use std::fs::{File, Files};
use std::io::{self, BufReader, Input, Read};
use std::time::Clock;
use terminal::{BLOCK, Patient};
use words::ViewWords;

/// What the lines came to. It isn't let go of: the process ends with what is told of it (`forget`).
pub(crate) struct Replayed<H: Handler, S: Store> {
    pub book: Book<H, S>,
    /// What the journal has, where the lines are of one.
    pub journal: Option<Told>,
}

impl<H: Handler, S: Store> Replayed<H, S> {
    /// Leaves it as it is, for the process to end with.
    pub(crate) fn forget(self) {
        let Replayed { book, journal } = self;
        book.forget();
        if let Some(journal) = journal {
            journal.forget();
        }
    }
}

/// Steps the lines of the journal that is named, or of the input, over a store that acknowledged nothing yet. Nothing
/// where they can't be read or stepped, which is told.
pub(crate) fn replay_of<
    R: Files<File = File> + Clock + Input + AllocGlobal,
    L: Log,
    H: Handler + Clone,
    S: Store,
>(rt: &R, told: &L, handler: &H, store: S, view: &ViewWords<'_>) -> Option<Replayed<H, S>>
    requires { S.log store ≡ [] }
{
    let alloc = rt.alloc();
    let Ok(own) = handler.clone() else {
        tell(told, ServeFault::NoMemory);
        return None;
    };
    let Some(path) = view.journal else {
        let input = Patient::new(rt, rt.reader());
        return after_all(told, alloc, own, store, input, None, view.drives);
    };
    match read_journal(rt, alloc, path) {
        Ok((journal, file)) => after_all(told, alloc, own, store, file, Some(journal), view.drives),
        Err(error) => {
            error!(told; "can't read the journal {path:?}: {error}");
            None
        }
    }
}

/// What all lines come to, whose replies go nowhere.
fn after_all<L: Log, H: Handler, S: Store, R: Read + Drop>(
    told: &L,
    alloc: Global,
    handler: H,
    store: S,
    lines: R,
    journal: Option<Told>,
    drives: bool,
) -> Option<Replayed<H, S>>
    requires { S.log store ≡ [] }
{
    let mut book = Book::new(alloc, handler, store);
    if let Err(fault) = step_all(alloc, &mut book, lines, drives) {
        book.forget();
        tell(told, fault);
        return None;
    }
    Some(Replayed { book, journal })
}

fn step_all<H: Handler, S: Store, R: Read + Drop>(
    alloc: Global,
    book: &mut Book<H, S>,
    lines: R,
    drives: bool,
) -> Result<u64, ServeFault> {
    let Ok(reader) = BufReader::with_capacity(alloc, BLOCK, lines) else {
        return Err(ServeFault::NoMemory);
    };
    let mut reader = Counted::new(reader);
    let mut nowhere = Counted::new(io::sink());
    if drives {
        drive(
            alloc,
            &mut reader,
            &mut nowhere,
            book,
            &mut Driver::new(alloc),
        )
    } else {
        serve(alloc, &mut reader, &mut nowhere, book)
    }
}

/// Says why nothing is told.
fn tell<L: Log>(told: &L, fault: ServeFault) {
    match fault {
        ServeFault::NoMemory => {
            error!(told; "there is no memory for the lines: nothing is told of them");
        }
        _ => {
            error!(told; "the lines can't be read: nothing is told of them");
        }
    }
}
