//! What the words ask for.

use crate::verbosity::Verbosity;
use diagram::Window;
use std::alloc::Global;

/// What the words ask for.
pub enum Asked<'a> {
    /// `run`, or `drive`.
    Run(RunWords<'a>),
    /// `feeds`.
    Feeds(FeedsWords<'a>),
    /// `draw`.
    Draw(DrawWords<'a>),
    /// `journal`.
    Journal(JournalWords<'a>),
    /// `trim`.
    Trim(TrimWords<'a>),
    /// `why`.
    Why(WhyWords<'a>),
    /// `status`.
    Status(StatusWords<'a>),
    /// `load`.
    Load(LoadWords<'a>),
    /// Help was printed, or the words were bad: the status to end with.
    Ended(u8),
}

/// What `run` or `drive` is to do beside answering lines.
#[derive(Clone, Copy)]
pub struct RunWords<'a> {
    /// Carry on behind each line, and tell what left.
    pub drives: bool,
    /// Host programs, by the second handler.
    pub programs: bool,
    /// Audit the tenants after the last line.
    pub audit: bool,
    /// Tell why each line was refused.
    pub explain: bool,
    /// End with status 3 where a line was refused.
    pub strict: bool,
    /// The file that the log is written to.
    pub log: Option<&'a str>,
    /// The file that the lines are kept in.
    pub journal: Option<&'a str>,
    /// The line of the journal from which on replies are written; of `drive` the line of what the journal's lines give.
    pub from: Option<u64>,
    /// Behind how many lines each a snapshot is kept beside the journal; none: never.
    pub snapshot: Option<u64>,
    /// Take over a journal of which nothing tells whose it is.
    pub adopt: bool,
    /// Go on with a journal of another handler, or of another version of it.
    pub accept_upgrade: bool,
    /// After how many seconds each it is told how far the run is.
    pub report: Option<u64>,
    /// On how many cores tenants are stepped side by side; none: as many as there are, where that may be.
    pub cores: Option<u64>,
    /// How much is told.
    pub verbosity: Verbosity,
}

impl<'a> RunWords<'a> {
    /// To answer lines, to audit after the last one where `audit` says so, and nothing else.
    pub fn of_audit(audit: bool) -> RunWords<'a> {
        RunWords {
            drives: false,
            programs: false,
            audit,
            explain: false,
            strict: false,
            log: None,
            journal: None,
            from: None,
            snapshot: None,
            adopt: false,
            accept_upgrade: false,
            report: None,
            cores: None,
            verbosity: Verbosity::Quiet,
        }
    }
}

/// What `feeds` is to do.
#[derive(Drop)]
pub struct FeedsWords<'a> {
    /// Host programs, by the second handler.
    pub programs: bool,
    /// Audit the tenants after the last reply.
    pub audit: bool,
    /// The files of the feeds, in order.
    pub files: Vec<&'a str>,
    /// How much is told.
    pub verbosity: Verbosity,
}

impl<'a> FeedsWords<'a> {
    /// To run feeds, to audit after the last reply where `audit` says so, and nothing else.
    pub fn of_audit(alloc: Global, audit: bool) -> FeedsWords<'a> {
        FeedsWords {
            programs: false,
            audit,
            files: Vec::new(alloc),
            verbosity: Verbosity::Quiet,
        }
    }
}

/// What `draw` is to draw, and where to.
#[derive(Clone, Copy)]
pub struct DrawWords<'a> {
    /// Host programs, by the second handler.
    pub programs: bool,
    /// The tenant, or else the first one opened.
    pub tenant: Option<&'a str>,
    /// The file, or else the output.
    pub to: Option<&'a str>,
    /// The columns.
    pub window: Window,
    /// Draw a page of HTML in place of a picture.
    pub html: bool,
}

/// What `journal` is to tell.
#[derive(Clone, Copy)]
pub struct JournalWords<'a> {
    /// The journal.
    pub file: &'a str,
    /// Tell it as JSON.
    pub json: bool,
}

/// What `trim` is to shorten.
#[derive(Clone, Copy)]
pub struct TrimWords<'a> {
    /// The journal is of the second handler.
    pub programs: bool,
    /// The journal is one of `drive`.
    pub drives: bool,
    /// The journal.
    pub file: &'a str,
}

/// Which lines `why` and `status` look at.
#[derive(Clone, Copy)]
pub struct ViewWords<'a> {
    /// Carry on behind each line.
    pub drives: bool,
    /// Host programs, by the second handler.
    pub programs: bool,
    /// The journal that has the lines, or else the input.
    pub journal: Option<&'a str>,
}

/// What `why` is to tell.
#[derive(Clone, Copy)]
pub struct WhyWords<'a> {
    /// The lines.
    pub view: ViewWords<'a>,
    /// The tenant.
    pub tenant: &'a str,
    /// The number of the unit.
    pub unit: u64,
    /// Tell it as JSON.
    pub json: bool,
}

/// What `status` is to tell.
#[derive(Clone, Copy)]
pub struct StatusWords<'a> {
    /// The lines.
    pub view: ViewWords<'a>,
    /// Tell it as JSON.
    pub json: bool,
}

/// What `load` is to write lines for.
#[derive(Clone, Copy)]
pub struct LoadWords<'a> {
    /// The file of the image.
    pub image: &'a str,
    /// The tenant.
    pub tenant: &'a str,
    /// The number of the unit.
    pub unit: u64,
    /// The number of the first line among those from outside to the unit.
    pub number: u64,
}
