//! What the words ask for, done.

use crate::journals::{journal_as_asked, trim_as_asked};
use crate::run_asked::{run_as_asked, shows_bar};
use codec::Portable;
use drawings::draw_on;
use feed_runs::{feeds_asked, open_feeds};
use files::fill_descriptors;
use handler::Handler;
use images::load_on;
use log::{LevelFilter, Log, Logged, error};
use shared_log::MemoryStore;
use std::env::Env;
use std::fs::{File, Files};
use std::io::{self, ErrorKind, Input};
use std::sync::Wait;
use std::thread::Threads;
use std::time::Clock;
use terminal::{Diagnostics, Patient};
use views::{status_on, why_on};
use words::{Asked, FeedsWords, Pages, Program, read_words};

/// Which standard streams are terminals.
#[derive(Clone, Copy)]
pub struct Terminals {
    pub input: bool,
    pub errors: bool,
}

/// Reads the words of the command line, does what they ask for, and tells the status to end with: 0 where it is done, 1
/// after a fault of a file, the input, the output, memory or threads, or an audit that isn't ok, 2 where the words
/// are bad, and 3 where a line was refused, if that is asked for.
pub fn run_program<
    R: Threads
        + Wait
        + Sync
        + Files<File = File>
        + Env
        + Clock
        + Print
        + Eprint
        + Input
        + AllocGlobal,
    H: Portable + Copy + Send + Sync,
>(rt: &R, handler: H, program: &Program<'_>, terminals: Terminals) -> u8 {
    run_either(rt, handler, handler, program, terminals)
}

/// The same for a program with a second handler, which the word `--programs` chooses.
pub fn run_either<
    R: Threads
        + Wait
        + Sync
        + Files<File = File>
        + Env
        + Clock
        + Print
        + Eprint
        + Input
        + AllocGlobal,
    H: Portable + Copy + Send + Sync,
    P: Portable + Copy + Send + Sync,
>(rt: &R, handler: H, programs: P, program: &Program<'_>, terminals: Terminals) -> u8 {
    let diagnostics = Diagnostics {
        rt,
        name: program.name,
        bar: None,
    };
    let told = Logged::new(rt, LevelFilter::Warn, diagnostics);
    if let Err(error) = fill_descriptors(rt) {
        error!(&told; "a standard stream is closed, and nothing can stand in its place: {error}");
        return 1;
    }
    match words_of(rt) {
        Ok(words) => {
            do_words(
                rt,
                &told,
                handler,
                programs,
                program,
                terminals,
                words.as_slice(),
            )
        }
        Err(error) => bad_words(&told, program, &error),
    }
}

/// Does what these words ask for, with the handler that they choose.
fn do_words<
    R: Threads + Wait + Sync + Files<File = File> + Clock + Print + Eprint + Input + AllocGlobal,
    L: Log,
    H: Portable + Copy + Send + Sync,
    P: Portable + Copy + Send + Sync,
>(
    rt: &R,
    told: &L,
    handler: H,
    programs: P,
    program: &Program<'_>,
    terminals: Terminals,
    words: &[String],
) -> u8 {
    let Ok(pages) = Pages::new(rt.alloc(), program) else {
        error!(told; "there is no memory for the words: free some, and run again");
        return 1;
    };
    let asked = read_words(rt, &pages, words);
    if is_of_programs(&asked) {
        do_asked(rt, told, programs, program, terminals, asked)
    } else {
        do_asked(rt, told, handler, program, terminals, asked)
    }
}

/// Whether the second handler is asked for.
fn is_of_programs(asked: &Asked<'_>) -> bool {
    match asked {
        Asked::Run(run) => run.programs,
        Asked::Feeds(feeds) => feeds.programs,
        Asked::Draw(draw) => draw.programs,
        Asked::Why(why) => why.view.programs,
        Asked::Status(status) => status.view.programs,
        Asked::Trim(trim) => trim.programs,
        Asked::Load(_) | Asked::Journal(_) | Asked::Ended(_) => false,
    }
}

/// Does what is asked for, with this handler.
fn do_asked<
    R: Threads + Wait + Sync + Files<File = File> + Clock + Print + Eprint + Input + AllocGlobal,
    L: Log,
    H: Portable + Copy + Send + Sync,
>(
    rt: &R,
    told: &L,
    handler: H,
    program: &Program<'_>,
    terminals: Terminals,
    asked: Asked<'_>,
) -> u8 {
    match asked {
        Asked::Run(run) => {
            run_as_asked(rt, handler, &program.hosting(run.programs), terminals, &run)
        }
        Asked::Feeds(feeds) => feeds_as_asked(rt, handler, program, terminals, &feeds),
        Asked::Draw(draw) => {
            let store = MemoryStore::new(rt.alloc());
            draw_on(rt, told, handler, store, &draw, terminals.errors)
        }
        Asked::Why(why) => why_on(rt, told, handler, MemoryStore::new(rt.alloc()), &why),
        Asked::Status(status) => {
            status_on(rt, told, handler, MemoryStore::new(rt.alloc()), &status)
        }
        Asked::Load(load) => load_on(rt, told, &load),
        Asked::Trim(trim) => {
            let hosting = program.hosting(trim.programs);
            trim_as_asked(rt, told, rt.alloc(), handler, &hosting, &trim)
        }
        Asked::Journal(journal) => journal_as_asked(rt, told, rt.alloc(), &journal),
        Asked::Ended(status) => status,
    }
}

/// The words of the command line, the program's name among them.
fn words_of<R: Env + AllocGlobal>(rt: &R) -> io::Result<Vec<String>> {
    Ok(std::env::args(rt)?.collect(rt.alloc())?)
}

/// Says why the words can't be read, and tells the status to end with: 1 where there is no memory, 2 where one is bad.
fn bad_words<L: Log>(told: &L, program: &Program<'_>, error: &io::Error) -> u8 {
    let name = program.name;
    if error.kind() == ErrorKind::InvalidData {
        error!(told; "a word is not UTF-8: see `{name} --help`");
        2
    } else {
        error!(told; "there is no memory for the words: free some, and run again");
        1
    }
}

/// `feeds`, beside a bar where one may be drawn.
fn feeds_as_asked<
    R: Threads + Wait + Sync + Files<File = File> + Print + Eprint + Clock + AllocGlobal,
    H: Handler + Copy + Send + Sync,
>(rt: &R, handler: H, program: &Program<'_>, terminals: Terminals, feeds: &FeedsWords<'_>) -> u8 {
    let diagnostics = Diagnostics {
        rt,
        name: program.name,
        bar: None,
    };
    let told = Logged::new(rt, feeds.verbosity.level(), diagnostics);
    let Some(inputs) = open_feeds(rt, &told, rt.alloc(), feeds.files.as_slice()) else {
        return 1;
    };
    let output = Patient::new(rt, io::writer(rt));
    let shows = shows_bar(terminals, feeds.verbosity);
    let store = MemoryStore::new(rt.alloc());
    feeds_asked(rt, &told, handler, store, inputs, output, feeds, shows)
}
