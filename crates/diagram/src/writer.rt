//! What a page is written to.

use crate::escape::add_text;
use crate::layout::Point;
use model::NoMemory;
use std::alloc::Global;
use std::fmt;

/// A page that is written. Where there is no memory for something, this and all behind it is left out, which the end
/// tells: so what adds to the page has nothing to tell.
#[derive(Drop)]
pub(crate) struct Writer {
    alloc: Global,
    page: String,
    /// Whether all that was added is there.
    is_whole: bool,
}

impl Writer {
    /// Of an empty page. It takes no memory.
    pub(crate) fn new(alloc: Global) -> Writer {
        Writer {
            alloc,
            page: String::new(alloc),
            is_whole: true,
        }
    }

    /// The page, if there was memory for all of it.
    pub(crate) fn finish(self) -> Result<String, NoMemory> {
        let Writer { page, is_whole, .. } = self;
        if is_whole { Ok(page) } else { Err(NoMemory) }
    }

    /// Adds a text of the program's own.
    pub(crate) fn push(&mut self, text: &str) {
        if self.is_whole {
            self.is_whole = self.page.push_str(text).is_ok();
        }
    }

    /// Adds a text of a step, escaped.
    pub(crate) fn add_text(&mut self, text: &str) {
        if self.is_whole {
            self.is_whole = add_text(self.alloc, &mut self.page, text).is_ok();
        }
    }

    /// Adds what `write!` is given.
    pub(crate) fn write_fmt<D: fmt::Display + Drop>(&mut self, value: D) {
        if self.is_whole {
            self.is_whole = self.page.write_fmt(value).is_ok();
        }
    }

    /// Adds an attribute that has a number, where there is one.
    pub(crate) fn add_number(&mut self, name: &str, number: Option<usize>) {
        if let Some(number) = number {
            write!(self, " data-{name}=\"{number}\"");
        }
    }

    /// Adds where a group stands, and ends its tag.
    pub(crate) fn add_position(&mut self, point: Point) {
        write!(self, " transform=\"translate({point})\">");
    }
}
