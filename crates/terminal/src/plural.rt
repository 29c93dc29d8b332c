//! A number with its noun.

use std::fmt;
use std::fmt::{Display, Formatter};

/// A number with its noun, which has an `s` where it isn't one: `1 line`, `2 lines`.
#[derive(Clone, Copy)]
pub struct Plural(pub u64, pub &'static str);

impl Display for Plural {
    fn fmt<W: fmt::Write>(&self, out: &mut Formatter<W>) -> fmt::Result {
        let Plural(number, noun) = *self;
        write!(out, "{number} {noun}{}", if number == 1 { "" } else { "s" })
    }
}
