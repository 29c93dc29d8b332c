//! What a journal has, told at any time.

use crate::about::{About, Maker, earlier_value, text_or_null};
use crate::tail::trusted_length;
use crate::trimming::{Trimmed, trimmed_of};
use durable::measure;
use serde_json::{Value, json};
use std::alloc::{AllocError, Global};
use std::fmt::{Display, Formatter};
use std::fs::{File, Files};
use std::io::{BufReader, ErrorKind, Read, Seek, SeekFrom, Take};
use std::{fmt, io, mem};
use terminal::{BLOCK, Plural};

/// What a journal has.
#[derive(Drop)]
pub struct Told {
    /// Whole lines, with those that were trimmed away.
    pub lines: u64,
    /// Those that were trimmed away.
    pub trimmed: u64,
    /// Their bytes.
    pub bytes: u64,
    /// Bytes behind them, which the next run cuts off.
    pub torn: u64,
    /// What the page beside it says, if there is one.
    pub about: Option<About>,
}

/// Tells what the journal has, also while a run has it: lines that are on their way may be among them.
///
/// # Errors
///
/// That of the system, where the file or the page beside it can't be read.
pub fn tell_journal<R: Files<File = File>>(rt: &R, alloc: Global, path: &str) -> io::Result<Told> {
    let (told, _) = look_at(rt, alloc, path)?;
    Ok(told)
}

/// The same, and a reader of its whole lines. The file isn't locked, and nothing is written to it.
///
/// # Errors
///
/// That of the system, where the file or the page beside it can't be read; `InvalidData` where its first lines were
/// trimmed away.
pub fn read_journal<R: Files<File = File>>(
    rt: &R,
    alloc: Global,
    path: &str,
) -> io::Result<(Told, Take<File>)> {
    let found = look_at(rt, alloc, path)?;
    if found.0.trimmed > 0 {
        return Err(io::Error::new(ErrorKind::InvalidData, "its first lines were trimmed away"));
    }
    Ok(found)
}

/// What the journal has, and a reader of the whole lines that are in the file.
fn look_at<R: Files<File = File>>(
    rt: &R,
    alloc: Global,
    path: &str,
) -> io::Result<(Told, Take<File>)> {
    let mut file = File::open(rt, path)?;
    let length = file.metadata()?.len();
    let trusted = trusted_length(alloc, &file, length)?;
    let whole = {
        let mut reader = BufReader::with_capacity(alloc, BLOCK, (&file).take(trusted))?;
        measure(&mut reader, 0)?
    };
    file.seek(SeekFrom::Start(0))?;
    let trimmed = trimmed_of(alloc, &file, length)?;
    let about = About::read(rt, alloc, path)?;
    let trimmed = trimmed.filter(|said| gone_by(&about) == Some(said.lines));
    let told = Told {
        lines: lines_of(whole.lines, trimmed),
        trimmed: match trimmed {
            Some(said) => said.lines,
            None => 0,
        },
        bytes: whole.whole,
        torn: length.saturating_sub(whole.whole),
        about,
    };
    Ok((told, file.take(whole.whole)))
}

/// How many lines the page says went.
fn gone_by(about: &Option<About>) -> Option<u64> {
    match about {
        Some(about) => about.trimmed,
        None => None,
    }
}

/// How many lines a journal has that has so many with the first one, which is no step of one that was trimmed.
fn lines_of(lines: u64, trimmed: Option<Trimmed>) -> u64 {
    match trimmed {
        Some(said) => said.lines.saturating_add(lines.saturating_sub(1)),
        None => lines,
    }
}

impl Told {
    /// Leaves it as it is, where the process ends with it.
    pub fn forget(self) {
        mem::forget(self);
    }

    /// The object that says it.
    pub fn to_json(&self, alloc: Global) -> Result<String, AllocError> {
        let maker = self.about.as_ref().map(|about| &about.maker);
        let version = text_or_null(alloc, maker.and_then(Maker::version))?;
        let handler = text_or_null(alloc, maker.and_then(Maker::handler))?;
        let handler_version = text_or_null(alloc, maker.and_then(Maker::handler_version))?;
        let earlier = match &self.about {
            Some(about) => earlier_value(alloc, about.earlier.as_slice())?,
            None => Value::Array(Vec::new(alloc)),
        };
        let value = json!(in alloc; {
            "bytes": self.bytes,
            "earlier": earlier,
            "handler": handler,
            "handler_version": handler_version,
            "lines": self.lines,
            "recall": version,
            "torn": self.torn,
            "trimmed": self.trimmed,
        })?;
        value.to_string(alloc)
    }
}

impl Display for Told {
    fn fmt<W: fmt::Write>(&self, out: &mut Formatter<W>) -> fmt::Result {
        let lines = Plural(self.lines, "line");
        let bytes = Plural(self.bytes, "byte");
        write!(out, "{lines}, {bytes}")?;
        if self.trimmed > 0 {
            let trimmed = Plural(self.trimmed, "line");
            write!(
                out,
                ", without the first {trimmed}, which were trimmed away"
            )?;
        }
        if self.torn > 0 {
            let torn = Plural(self.torn, "byte");
            write!(out, ", and {torn} behind them, which the next run cuts off")?;
        }
        match &self.about {
            Some(about) => write!(out, "; {about}"),
            None => out.write_str("; no page beside it tells whose it is"),
        }
    }
}
