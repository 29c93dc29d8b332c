//! How far a run is: a bar on standard error, where that is a terminal and the end is known, and a reader that tells
//! it.

use std::fmt::{Display, Formatter};
use std::fs::Files;
use std::io::Read;
use std::sync::atomic::{AtomicU64, Ordering};
use std::time::{Clock, Instant};
use std::{fmt, fs, io};

/// How many milliseconds a bar stands before it is drawn anew.
const PAUSE: u64 = 100;

/// How many cells a bar has.
const CELLS: u64 = 24;

/// Takes a bar away, and what stands on its line.
const CLEAR: &str = "\r\u{1b}[K";

/// How many bytes standard input has, where it is a file.
pub fn input_size<R: Files>(rt: &R) -> Option<u64> {
    let found = fs::metadata(rt, "/dev/stdin").ok()?;
    if found.is_file() {
        Some(found.len())
    } else {
        None
    }
}

/// What is told of how far a run is.
#[derive(Clone, Copy)]
pub struct Progress {
    /// The work, in bytes or in steps, where a bar is drawn.
    pub work: Option<u64>,
    /// Whether bytes and lines are counted whatever is drawn or written.
    pub counts: bool,
}

/// How far a run is. Nothing is drawn where the work isn't known, as where none is wanted.
#[derive(Drop)]
pub struct Bar<'a, R> {
    rt: &'a R,
    told: Progress,
    begun: Option<Instant>,
    done: AtomicU64,
    lines: AtomicU64,
    /// After how many milliseconds it was drawn last; 0 where it wasn't.
    drawn: AtomicU64,
}

impl<'a, R: Eprint + Clock> Bar<'a, R> {
    /// A bar for so much work.
    pub fn new(rt: &'a R, work: Option<u64>) -> Bar<'a, R> {
        let told = Progress {
            work,
            counts: false,
        };
        Bar::telling(rt, told)
    }

    /// A bar, and lines.
    pub fn telling(rt: &'a R, told: Progress) -> Bar<'a, R> {
        Bar {
            rt,
            told,
            begun: Instant::now(rt).ok(),
            done: AtomicU64::new(0),
            lines: AtomicU64::new(0),
            drawn: AtomicU64::new(0),
        }
    }

    /// Whether anything is told or counted.
    fn is_wanted(&self) -> bool {
        self.told.work.is_some() || self.told.counts
    }

    /// So much more is done, and so many lines with it.
    pub fn go_on(&self, done: u64, lines: u64) {
        if !self.is_wanted() {
            return;
        }
        add(&self.done, done);
        add(&self.lines, lines);
        self.draw(self.millis());
    }

    /// Draws it, where it is drawn and was not just before.
    fn draw(&self, now: u64) {
        let Some(work) = self.told.work else {
            return;
        };
        if now.saturating_sub(self.drawn.load(Ordering::SeqCst)) >= PAUSE {
            self.drawn.store(now, Ordering::SeqCst);
            let reached = Reached {
                work,
                done: self.done.load(Ordering::SeqCst),
                pace: self.pace(now),
            };
            let _ = eprint!(self.rt; "{CLEAR}{reached}");
        }
    }

    /// Writes a line of how far the run is.
    pub(crate) fn report(&self) {
        self.clear();
        let _ = eprintln!(self.rt;
            "progress {} bytes={}",
            Words(self.pace_so_far()),
            self.done.load(Ordering::SeqCst)
        );
    }

    /// How many lines there were, and in what time.
    pub fn pace_so_far(&self) -> Pace {
        self.pace(self.millis())
    }

    fn pace(&self, millis: u64) -> Pace {
        Pace {
            lines: self.lines.load(Ordering::SeqCst),
            millis,
        }
    }

    /// Takes the bar away.
    pub fn clear(&self) {
        if self.drawn.load(Ordering::SeqCst) > 0 {
            let _ = eprint!(self.rt; "{CLEAR}");
        }
    }

    /// How many milliseconds the run takes so far.
    fn millis(&self) -> u64 {
        let Some(begun) = self.begun else {
            return 0;
        };
        match begun.elapsed(self.rt) {
            Ok(taken) => taken
                .as_secs()
                .saturating_mul(1000)
                .saturating_add(u64::from(taken.subsec_millis())),
            Err(_) => 0,
        }
    }
}

/// The number with so much more, as far as 64 bits go.
fn add(number: &AtomicU64, more: u64) -> u64 {
    number
        .fetch_add(more, Ordering::SeqCst)
        .saturating_add(more)
}

/// How many lines end in these bytes.
fn line_feeds(bytes: &[u8]) -> u64 {
    bytes.iter().filter(|byte| **byte == b'\n').count() as u64
}

/// How many lines there were in how many milliseconds.
#[derive(Clone, Copy)]
pub struct Pace {
    pub lines: u64,
    pub millis: u64,
}

/// A part of a whole; 0 of nothing.
fn part(number: u64, of: u64) -> u64 {
    if of == 0 { 0 } else { number / of }
}

impl Pace {
    /// How many lines a second.
    pub fn rate(&self) -> u64 {
        part(self.lines.saturating_mul(1000), self.millis)
    }
}

/// A pace as `key=value` words.
#[derive(Clone, Copy)]
struct Words(Pace);

impl Display for Words {
    fn fmt<W: fmt::Write>(&self, out: &mut Formatter<W>) -> fmt::Result {
        let Words(pace) = *self;
        let (seconds, rate) = (pace.millis / 1000, pace.rate());
        write!(
            out,
            "seconds={seconds} lines={} lines_per_second={rate}",
            pace.lines
        )
    }
}

/// What a bar shows.
#[derive(Clone, Copy)]
struct Reached {
    work: u64,
    done: u64,
    pace: Pace,
}

impl Reached {
    /// How many cells are full.
    fn cells(&self) -> u64 {
        part(self.done.saturating_mul(CELLS), self.work).min(CELLS)
    }

    /// How many seconds are left, if it goes on so.
    fn seconds_left(&self) -> u64 {
        let left = self.work.saturating_sub(self.done);
        part(self.pace.millis.saturating_mul(left), self.done) / 1000
    }
}

impl Display for Reached {
    fn fmt<W: fmt::Write>(&self, out: &mut Formatter<W>) -> fmt::Result {
        let full = self.cells();
        for cell in 0..CELLS {
            out.write_str(if cell < full { "#" } else { "." })?;
        }
        let seconds = self.seconds_left();
        write!(
            out,
            " {} lines, {} a second, {}:{:02} left",
            self.pace.lines,
            self.pace.rate(),
            seconds / 60,
            seconds % 60
        )
    }
}

/// A reader that tells a bar of its bytes.
#[derive(Drop)]
pub struct Watched<'a, R, I> {
    bar: &'a Bar<'a, R>,
    inner: I,
}

impl<'a, R, I> Watched<'a, R, I> {
    pub fn new(bar: &'a Bar<'a, R>, inner: I) -> Watched<'a, R, I> {
        Watched { bar, inner }
    }
}

impl<'a, R: Eprint + Clock, I: Read> Read for Watched<'a, R, I> {
    fn read(&mut self, buf: &mut [u8]) -> io::Result<usize> {
        let count = self.inner.read(buf)?;
        if self.bar.is_wanted() {
            self.bar.go_on(count as u64, line_feeds(&buf[..count]));
        }
        Ok(count)
    }
}
