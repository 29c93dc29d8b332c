//! `run` and `drive`, as the words ask for them.

ghost use denote.Param.Send.{IsSend};

use crate::cores::cores_for;
use crate::owners::{about_of, no_name, owner_of};
use crate::program_run::Terminals;
use codec::Portable;
use files::{LogFile, Takeover, has_snapshot, lock_journal, make_log};
use log::{Log, Logged, info, warn};
use resumption::Snapshots;
use runs::{Hosted, run_asked, run_in_memory, run_journaled};
use stable_log::WriterStore;
use std::fs::{File, Files};
use std::io::{self, Input, Read, Write};
use std::sync::Wait;
use std::thread;
use std::thread::{Threads, scope_env};
use std::time::Clock;
use terminal::{
    Bar, Diagnostics, Pace, Patient, Plural, Progress, Watched, input_size, report_each,
};
use words::{Program, RunWords, Verbosity};

/// Whether a bar may be drawn.
pub(crate) fn shows_bar(terminals: Terminals, verbosity: Verbosity) -> bool {
    verbosity != Verbosity::Quiet && terminals.errors
}

/// Whether snapshots are kept beside the journal, or there is one: it is of one host, and of no history.
fn goes_on<R: Files<File = File> + AllocGlobal>(rt: &R, asked: &RunWords<'_>) -> bool {
    match asked.journal {
        Some(path) => asked.snapshot.is_some() || has_snapshot(rt, rt.alloc(), path),
        None => false,
    }
}

/// `run` or `drive`: with a log that is written, where a file is named for it, or with one in memory. Reasons are
/// told to a terminal unasked.
pub(crate) fn run_as_asked<
    R: Threads + Wait + Sync + Files<File = File> + Clock + Print + Eprint + Input + AllocGlobal,
    H: Portable + Clone + Send,
>(rt: &R, handler: H, program: &Program<'_>, terminals: Terminals, asked: &RunWords<'_>) -> u8 {
    let shows = shows_bar(terminals, asked.verbosity);
    let is_alone = matches!(asked.cores, None | Some(1));
    let run = RunWords {
        explain: asked.explain || shows && is_alone && !goes_on(rt, asked),
        ..*asked
    };
    let work = if shows { input_size(rt) } else { None };
    let bar = Bar::telling(
        rt,
        Progress {
            work,
            counts: run.verbosity == Verbosity::Verbose || run.report.is_some(),
        },
    );
    let diagnostics = Diagnostics {
        rt,
        name: program.name,
        bar: Some(&bar),
    };
    let told = Logged::new(rt, run.verbosity.level(), diagnostics);
    if terminals.input {
        tell_waiting(&told, program.name, run.drives);
    }
    let cores = cores_for(rt, &told, terminals, &run, goes_on(rt, &run));
    let status = run_reported(rt, &told, handler, program, &run, cores, &bar);
    bar.clear();
    tell_pace(&told, bar.pace_so_far());
    status
}

/// Tells who sits at a terminal that step lines are waited for.
fn tell_waiting<L: Log>(told: &L, name: &str, drives: bool) {
    let command = if drives { "drive" } else { "run" };
    warn!(told; "waiting for step lines from the terminal, up to Ctrl-D: `{name} {command} --help` lists them");
}

/// Tells how many lines were read, and how fast.
fn tell_pace<L: Log>(told: &L, pace: Pace) {
    let (lines, rate) = (Plural(pace.lines, "line"), Plural(pace.rate(), "line"));
    info!(told; "read {lines} in {} ms, {rate} a second", pace.millis);
}

/// `run`, while a thread writes a line of progress after each so many seconds, where that is asked for: also while
/// the run waits for lines. Where there is no thread for it no such line is written, and that is told.
fn run_reported<
    R: Threads + Wait + Sync + Files<File = File> + Clock + Print + Eprint + Input + AllocGlobal,
    L: Log,
    H: Portable + Clone + Send,
>(
    rt: &R,
    told: &L,
    handler: H,
    program: &Program<'_>,
    run: &RunWords<'_>,
    cores: usize,
    bar: &Bar<'_, R>,
) -> u8 {
    let Some(seconds) = run.report else {
        return run_watched(rt, told, handler, program, run, cores, bar);
    };
    thread::scope(
        scope_env(),
        rt,
        |scope| -> u8
            requires { IsSend H.State.row }
        {
            let Ok((running, ended)) = crossbeam_channel::unbounded(rt.alloc()) else {
                return run_unreported(rt, told, handler, program, run, cores, bar);
            };
            let Ok(reporting) = scope.spawn(move || report_each(rt, bar, seconds, ended)) else {
                return run_unreported(rt, told, handler, program, run, cores, bar);
            };
            let status = run_watched(rt, told, handler, program, run, cores, bar);
            drop(running);
            reporting.join(rt);
            status
        },
    )
}

/// `run`, where there is no thread that could write lines of progress.
fn run_unreported<
    R: Threads + Wait + Sync + Files<File = File> + Clock + Print + Eprint + Input + AllocGlobal,
    L: Log,
    H: Portable + Clone + Send,
>(
    rt: &R,
    told: &L,
    handler: H,
    program: &Program<'_>,
    run: &RunWords<'_>,
    cores: usize,
    bar: &Bar<'_, R>,
) -> u8 {
    warn!(told; "no line of progress is written: a thread can't be started");
    run_watched(rt, told, handler, program, run, cores, bar)
}

/// `run`, beside a bar.
fn run_watched<
    R: Threads + Wait + Sync + Files<File = File> + Clock + Print + Eprint + Input + AllocGlobal,
    L: Log,
    H: Portable + Clone + Send,
>(
    rt: &R,
    told: &L,
    handler: H,
    program: &Program<'_>,
    run: &RunWords<'_>,
    cores: usize,
    bar: &Bar<'_, R>,
) -> u8 {
    let alloc = rt.alloc();
    let host = Hosted {
        handler,
        kinds: program.kinds,
    };
    let input = Watched::new(bar, Patient::new(rt, rt.reader()));
    let output = Patient::new(rt, io::writer(rt));
    if let Some(path) = run.journal {
        return run_in_journal(rt, told, host, input, output, program, path, cores, run);
    }
    let Some(path) = run.log else {
        return run_in_memory(rt, told, alloc, host, input, output, cores, run);
    };
    match make_log(rt, told, path) {
        Some(file) => {
            let store = WriterStore::new(alloc, LogFile::new(told, file));
            run_asked(rt, told, alloc, host, input, output, store, run)
        }
        None => 1,
    }
}

/// `run` behind this journal.
fn run_in_journal<
    R: Threads + Sync + Files<File = File> + Clock + AllocGlobal,
    L: Log,
    I: Read + Drop,
    O: Write + Drop,
    H: Portable + Clone + Send,
>(
    rt: &R,
    told: &L,
    host: Hosted<'_, H>,
    input: I,
    output: O,
    program: &Program<'_>,
    path: &str,
    cores: usize,
    run: &RunWords<'_>,
) -> u8 {
    let alloc = rt.alloc();
    let owner = owner_of(program);
    let takeover = Takeover {
        adopt: run.adopt,
        accept_upgrade: run.accept_upgrade,
    };
    let locked = match lock_journal(rt, told, alloc, path, &owner, takeover) {
        Ok(locked) => locked,
        Err(status) => return status,
    };
    let Ok(about) = about_of(alloc, &owner, run.drives) else {
        return no_name(told);
    };
    let snapshots = Snapshots {
        files: rt,
        path,
        about: about.as_str(),
        each: run.snapshot,
    };
    run_journaled(
        rt, told, alloc, host, input, output, locked, &owner, snapshots, cores, run,
    )
}
