//! The page beside a journal.

use crate::fitness::unfit_kind;
use crate::replacing::replace_file;
use serde_json::{Error as JsonError, Map, Value, json};
use std::alloc::{AllocError, Global};
use std::fmt::{Display, Formatter};
use std::fs::{File, Files};
use std::io::ErrorKind;
use std::time::{Clock, SystemTime, UNIX_EPOCH};
use std::{fmt, fs, io};
use terminal::Plural;

/// What is added to the journal's name.
const SUFFIX: &str = ".about";

/// The program and the handler that a journal is of.
#[derive(Clone, Copy)]
pub struct Owner<'a> {
    /// The version of the program.
    pub version: &'a str,
    /// The name of its handler.
    pub handler: &'a str,
    /// The version of its handler.
    pub handler_version: &'a str,
}

/// What a page says of a program and its handler. A page that says less says nothing of that.
#[derive(Drop)]
pub struct Maker {
    version: Option<String>,
    handler: Option<String>,
    handler_version: Option<String>,
}

/// A text that may be there.
fn text_in(text: &Option<String>) -> Option<&str> {
    match text {
        Some(text) => Some(text.as_str()),
        None => None,
    }
}

impl Maker {
    /// The version of the program.
    pub fn version(&self) -> Option<&str> {
        text_in(&self.version)
    }

    /// The name of its handler.
    pub fn handler(&self) -> Option<&str> {
        text_in(&self.handler)
    }

    /// The version of its handler.
    pub fn handler_version(&self) -> Option<&str> {
        text_in(&self.handler_version)
    }

    /// What a value says.
    fn of(alloc: Global, value: &Value) -> Result<Maker, AllocError> {
        Ok(Maker {
            version: text_of(alloc, value, "recall")?,
            handler: text_of(alloc, value, "handler")?,
            handler_version: text_of(alloc, value, "handler_version")?,
        })
    }
}

/// A program and its handler that had the journal before another.
#[derive(Drop)]
pub struct Earlier {
    pub maker: Maker,
    /// How many lines the journal had when the next began.
    pub lines: u64,
}

/// What the page beside a journal says.
#[derive(Drop)]
pub struct About {
    /// Whose the journal is.
    pub maker: Maker,
    /// Whose it was before, in order.
    pub earlier: Vec<Earlier>,
    /// How many of its first lines were trimmed away, where some were.
    pub trimmed: Option<u64>,
}

impl About {
    /// Whether it is of this handler, in this version.
    pub fn is_of(&self, owner: &Owner<'_>) -> bool {
        self.maker.handler() == Some(owner.handler)
            && self.maker.handler_version() == Some(owner.handler_version)
    }

    /// The page beside a journal, if there is one.
    ///
    /// # Errors
    ///
    /// That of the system; `InvalidData` where the page is no JSON object.
    pub fn read<R: Files<File = File>>(
        rt: &R,
        alloc: Global,
        journal: &str,
    ) -> io::Result<Option<About>> {
        let path = path_of(alloc, journal)?;
        if let Ok(found) = fs::metadata(rt, path.as_str()) {
            // A pipe would be waited for.
            if let Some(kind) = unfit_kind(&found) {
                return Err(io::Error::new(ErrorKind::InvalidData, kind.as_str()));
            }
        }
        let file = match File::open(rt, path.as_str()) {
            Ok(file) => file,
            Err(error) if error.kind() == ErrorKind::NotFound => return Ok(None),
            Err(error) => return Err(error),
        };
        let text = io::read_to_string(alloc, file)?;
        match Value::from_str(alloc, text.as_str()) {
            Ok(value) => Ok(Some(About::of(alloc, &value)?)),
            Err(error) => Err(fault_of(&error)),
        }
    }

    /// What a value says.
    fn of(alloc: Global, value: &Value) -> Result<About, AllocError> {
        Ok(About {
            maker: Maker::of(alloc, value)?,
            earlier: earlier_in(alloc, value)?,
            trimmed: value.get("trimmed").and_then(Value::as_u64),
        })
    }

    /// What is said of the journal once another has it, from behind so many lines on: those that had it before.
    pub(crate) fn ended(self, lines: u64) -> Result<Vec<Earlier>, AllocError> {
        let About {
            maker,
            mut earlier,
            ..
        } = self;
        earlier.push(Earlier { maker, lines })?;
        Ok(earlier)
    }
}

/// Whose a value says that the journal was before.
fn earlier_in(alloc: Global, value: &Value) -> Result<Vec<Earlier>, AllocError> {
    let mut found = Vec::new(alloc);
    if let Some(values) = value.get("earlier").and_then(Value::as_array) {
        for value in values {
            found.push(Earlier {
                maker: Maker::of(alloc, value)?,
                lines: value.get("lines").and_then(Value::as_u64).unwrap_or(0),
            })?;
        }
    }
    Ok(found)
}

impl Display for Maker {
    fn fmt<W: fmt::Write>(&self, out: &mut Formatter<W>) -> fmt::Result {
        write!(
            out,
            "handler {:?}, version {:?}",
            self.handler().unwrap_or("?"),
            self.handler_version().unwrap_or("?")
        )
    }
}

impl Display for About {
    fn fmt<W: fmt::Write>(&self, out: &mut Formatter<W>) -> fmt::Result {
        write!(out, "{}", self.maker)?;
        for earlier in &self.earlier {
            let lines = Plural(earlier.lines, "line");
            write!(out, "; its first {lines} are of {}", earlier.maker)?;
        }
        Ok(())
    }
}

fn fault_of(error: &JsonError) -> io::Error {
    if error.is_memory() {
        io::Error::from(ErrorKind::OutOfMemory)
    } else {
        io::Error::new(ErrorKind::InvalidData, "it is no JSON")
    }
}

/// The text under a key, if there is one.
fn text_of(alloc: Global, value: &Value, key: &str) -> Result<Option<String>, AllocError> {
    match value.get(key).and_then(Value::as_str) {
        Some(text) => Ok(Some(String::from_str(alloc, text)?)),
        None => Ok(None),
    }
}

/// The page's path.
fn path_of(alloc: Global, journal: &str) -> Result<String, AllocError> {
    format!(in alloc; "{journal}{SUFFIX}")
}

/// Writes the page beside a journal anew, synced, whole or not at all. The folder isn't synced.
pub(crate) fn write_about<R: Files<File = File> + Clock>(
    rt: &R,
    alloc: Global,
    journal: &str,
    owner: &Owner<'_>,
    earlier: &[Earlier],
    trimmed: Option<u64>,
) -> io::Result<()> {
    let text = page(alloc, owner, earlier, trimmed, now(rt))?;
    let path = path_of(alloc, journal)?;
    replace_file(rt, alloc, path.as_str(), &[text.as_bytes()])
}

/// Notes in the page beside a journal that so many of its first lines are trimmed away.
pub(crate) fn note_trimmed<R: Files<File = File> + Clock>(
    rt: &R,
    alloc: Global,
    journal: &str,
    lines: u64,
) -> io::Result<()> {
    let Some(about) = About::read(rt, alloc, journal)? else {
        return Err(io::Error::new(ErrorKind::InvalidData, "there is no page beside it"));
    };
    let maker = &about.maker;
    let owner = Owner {
        version: maker.version().unwrap_or("?"),
        handler: maker.handler().unwrap_or("?"),
        handler_version: maker.handler_version().unwrap_or("?"),
    };
    let earlier = about.earlier.as_slice();
    write_about(rt, alloc, journal, &owner, earlier, Some(lines))
}

/// How many of a journal's first lines its page says are trimmed away, where it says so.
pub(crate) fn lines_gone<R: Files<File = File>>(
    rt: &R,
    alloc: Global,
    journal: &str,
) -> Option<u64> {
    match About::read(rt, alloc, journal) {
        Ok(Some(about)) => about.trimmed,
        Ok(None) | Err(_) => None,
    }
}

/// The text of the page. It says nothing of those before where there were none, nor of lines that went.
fn page(
    alloc: Global,
    owner: &Owner<'_>,
    earlier: &[Earlier],
    trimmed: Option<u64>,
    when: u64,
) -> Result<String, AllocError> {
    let mut value = owner_value(alloc, owner, when)?;
    if let Some(members) = value.as_object_mut() {
        add_past(alloc, members, earlier, trimmed)?;
    }
    let mut text = value.to_string(alloc)?;
    text.push('\n')?;
    Ok(text)
}

/// The object of a page that says whose the journal is, and since when.
fn owner_value(alloc: Global, owner: &Owner<'_>, when: u64) -> Result<Value, AllocError> {
    json!(in alloc; {
        "handler": owner.handler,
        "handler_version": owner.handler_version,
        "recall": owner.version,
        "when": when,
    })
}

/// Adds to a page those that had the journal before, and how many lines went, where there is anything to say.
fn add_past(
    alloc: Global,
    members: &mut Map<String, Value>,
    earlier: &[Earlier],
    trimmed: Option<u64>,
) -> Result<(), AllocError> {
    if !earlier.is_empty() {
        let value = earlier_value(alloc, earlier)?;
        members.insert(String::from_str(alloc, "earlier")?, value)?;
    }
    if let Some(lines) = trimmed {
        members.insert(String::from_str(alloc, "trimmed")?, Value::from(lines))?;
    }
    Ok(())
}

/// Those that had the journal before.
pub(crate) fn earlier_value(alloc: Global, earlier: &[Earlier]) -> Result<Value, AllocError> {
    let mut values = Vec::new(alloc);
    for each in earlier {
        values.push(one_earlier(alloc, each)?)?;
    }
    Ok(Value::Array(values))
}

/// One of them.
fn one_earlier(alloc: Global, earlier: &Earlier) -> Result<Value, AllocError> {
    let maker = &earlier.maker;
    let handler = text_or_null(alloc, maker.handler())?;
    let handler_version = text_or_null(alloc, maker.handler_version())?;
    let version = text_or_null(alloc, maker.version())?;
    json!(in alloc; {
        "handler": handler,
        "handler_version": handler_version,
        "lines": earlier.lines,
        "recall": version,
    })
}

/// A text, or null where there is none.
pub(crate) fn text_or_null(alloc: Global, text: Option<&str>) -> Result<Value, AllocError> {
    match text {
        Some(text) => Ok(Value::String(String::from_str(alloc, text)?)),
        None => Ok(Value::Null),
    }
}

/// The seconds since 1970, or 0 where the clock can't be read.
fn now(clock: &impl Clock) -> u64 {
    let Ok(now) = SystemTime::now(clock) else {
        return 0;
    };
    match now.duration_since(UNIX_EPOCH) {
        Ok(since) => since.as_secs(),
        Err(_) => 0,
    }
}
