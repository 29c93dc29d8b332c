//! The steps of an input, done.

ghost use Rattle.std.specs.Prelude.{◌≡◌, []};

use book::Book;
use handler::Handler;
use lines::{Counted, LineFault, ServeFault, read_feed};
use model::Step;
use shared_log::Store;
use std::alloc::Global;
use std::io::{BufReader, Read};
use std::time::Clock;
use terminal::{BLOCK, Bar, Watched};

/// What the steps of an input have come to. It isn't let go of: the process ends with its picture (`forget`).
pub(crate) struct Followed<H: Handler, S: Store> {
    pub book: Book<H, S>,
    /// The number of the line of each entry of the book's history, the first line being 1.
    pub lines: Vec<u64>,
}

impl<H: Handler, S: Store> Followed<H, S> {
    /// Leaves it as it is, for the process to end with.
    pub(crate) fn forget(self) {
        let Followed {
            book,
            lines: _lines,
        } = self;
        book.forget();
    }
}

/// Reads the input, and then does its steps, over a store that acknowledged nothing yet. Where the input has so many
/// bytes, a bar tells how far the reading is, and another one how far the steps.
pub(crate) fn follow<R: Eprint + Clock, H: Handler, S: Store, I: Read + Drop>(
    rt: &R,
    alloc: Global,
    handler: H,
    store: S,
    input: I,
    size: Option<u64>,
) -> Result<Followed<H, S>, ServeFault>
    requires { S.log store ≡ [] }
{
    let bar = Bar::new(rt, size);
    let read = read_lines(alloc, Watched::new(&bar, input));
    bar.clear();
    let lines = read?;
    let steps = size.map(|_| lines.len() as u64);
    let bar = Bar::new(rt, steps);
    let followed = do_steps(alloc, Book::new(alloc, handler, store), lines, &bar);
    bar.clear();
    followed
}

/// The step of each line of the input, or why it gave none.
fn read_lines<I: Read + Drop>(
    alloc: Global,
    input: I,
) -> Result<Vec<Result<Step, LineFault>>, ServeFault> {
    let Ok(reader) = BufReader::with_capacity(alloc, BLOCK, input) else {
        return Err(ServeFault::NoMemory);
    };
    read_feed(alloc, &mut Counted::new(reader))
}

/// Does the steps, one by one. An entry is of the line whose step it is; a step that finds no memory for one has none.
fn do_steps<R: Eprint + Clock, H: Handler, S: Store>(
    alloc: Global,
    book: Book<H, S>,
    lines: Vec<Result<Step, LineFault>>,
    bar: &Bar<'_, R>,
) -> Result<Followed<H, S>, ServeFault> {
    let mut book = book;
    let mut numbers = Vec::new(alloc);
    let mut number = 0u64;
    for line in lines {
        number = number.saturating_add(1);
        if let Ok(step) = line {
            book.step(step);
            if numbers.len() < book.history().len() && numbers.push(number).is_err() {
                book.forget();
                return Err(ServeFault::NoMemory);
            }
        }
        bar.go_on(1, 1);
    }
    Ok(Followed {
        book,
        lines: numbers,
    })
}
