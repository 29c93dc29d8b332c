//! What a program tells of itself.

/// A program that hosts a handler. Its words are those of `recall`, whatever its name and its handler are.
#[derive(Clone, Copy)]
pub struct Program<'a> {
    /// Its name on the command line.
    pub name: &'a str,
    /// What it is, in one line.
    pub about: &'a str,
    /// Its version.
    pub version: &'a str,
    /// The name of its handler, which is written beside each journal.
    pub handler: &'a str,
    /// The version of its handler: another one where the same texts may have other turns.
    pub handler_version: &'a str,
    /// The names of the kinds that its handler knows, in the order of their numbers.
    pub kinds: &'a [&'a str],
    /// What the word `--programs` has it host in place of that. Where there is nothing, there is neither this word nor
    /// `load`.
    pub programs: Option<Hosting<'a>>,
    /// A line of an example.
    pub example: &'a str,
}

/// A handler, as the program tells of it.
#[derive(Clone, Copy)]
pub struct Hosting<'a> {
    /// Its name, which is written beside each journal.
    pub handler: &'a str,
    /// Its version: another one where the same texts may have other turns.
    pub handler_version: &'a str,
    /// The names of the kinds that it knows, in the order of their numbers.
    pub kinds: &'a [&'a str],
}

impl<'a> Program<'a> {
    /// The program as `--programs` has it, if that was said.
    pub fn hosting(&self, programs: bool) -> Program<'a> {
        match self.programs {
            Some(hosting) if programs => Program {
                handler: hosting.handler,
                handler_version: hosting.handler_version,
                kinds: hosting.kinds,
                ..*self
            },
            _ => *self,
        }
    }
}
