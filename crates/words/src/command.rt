//! The words, read with `clap`.

use crate::asked::{
    Asked, DrawWords, FeedsWords, JournalWords, LoadWords, RunWords, StatusWords, TrimWords,
    ViewWords, WhyWords,
};
use crate::pages::Pages;
use crate::verbosity::Verbosity;
use clap::error::ErrorKind;
use clap::{Arg, ArgAction, ArgMatches, Command, Error, value_parser};
use diagram::Window;
use model::MAX_FEEDS;
use std::alloc::Global;

/// The flag that asks for audit lines.
const AUDIT: &str = "audit";

/// The flag that asks for reasons.
const EXPLAIN: &str = "explain";

/// The flag that asks for another status where a line was refused.
const STRICT: &str = "strict";

/// The flag that takes over a journal.
const ADOPT: &str = "adopt";

/// The flag that goes on with a journal of another handler.
const ACCEPT_UPGRADE: &str = "accept-upgrade";

/// The flag that asks for JSON.
const JSON: &str = "json";

/// The option that names the log's file.
const LOG: &str = "log";

/// The option that names the journal.
const JOURNAL: &str = "journal";

/// The flag that asks for no bar, and for faults alone.
const QUIET: &str = "quiet";

/// The flag that asks for what was done.
const VERBOSE: &str = "verbose";

/// The files of the feeds, or the journal.
const FILE: &str = "FILE";

/// The option that names the tenant that is drawn.
const TENANT: &str = "tenant";

/// The option that names the drawing's file.
const TO: &str = "to";

/// The flag that asks for a page in place of a picture.
const HTML: &str = "html";

/// The option that has the first column, or the first line of a journal.
const FROM: &str = "from";

/// The option that has how many last columns.
const LAST: &str = "last";

/// The flag that has the lines driven.
const DRIVE: &str = "drive";

/// The flag that asks for the second handler.
const PROGRAMS: &str = "programs";

/// The file of an image.
const IMAGE: &str = "IMAGE";

/// The option that has a unit's number.
const UNIT: &str = "unit";

/// The option that has the number of a line from outside.
const NUMBER: &str = "number";

/// The option that has after how many seconds each progress is told.
const REPORT: &str = "report";

/// The option that has behind how many lines each a snapshot is kept.
const SNAPSHOT: &str = "snapshot";

/// The option that has on how many cores tenants are stepped.
const CORES: &str = "cores";

/// On how many cores tenants are stepped at most.
const MAX_CORES: i64 = 256;

/// What `--audit` asks for.
const AUDIT_HELP: &str =
    "After the last reply, writes a line for each open tenant that tells whether a run without failures puts out what was released";

/// What `--explain` asks for.
const EXPLAIN_HELP: &str =
    "Writes to standard error why each line was refused, and what would help; always, where that is a terminal";

/// What `--strict` asks for.
const STRICT_HELP: &str =
    "Ends with status 3 where a line was refused; each line is answered all the same";

/// What `--adopt` asks for.
const ADOPT_HELP: &str =
    "Takes over a FILE that has bytes, and of which no page beside it tells whose it is";

/// What `--accept-upgrade` asks for.
const ACCEPT_UPGRADE_HELP: &str =
    "Goes on with a FILE of another handler, or of another version of it, steps its lines by this one, and notes in FILE.about at which line that was";

/// What `--log` names.
const LOG_HELP: &str =
    "Makes FILE anew, for its owner alone, and writes a line to it for each record that is logged";

/// What `--journal` names for `run` and `drive`.
const JOURNAL_HELP: &str =
    "Keeps each line in FILE before it is stepped, and begins with the lines that FILE has, without their replies";

/// What `--from` asks of `run`.
const RUN_FROM: &str = "Writes the replies to the lines of the journal from N on (from 0)";

/// What `--from` asks of `drive`.
const DRIVE_FROM: &str =
    "Leaves out the first N lines of all that the journal's lines give, replies and outputs alike, and writes the others";

/// Reads the words, and prints help or what is wrong with them. Help that can't be written is an output
/// fault, which is told, of status 1.
pub fn read_words<'a, R: Print + Eprint + AllocGlobal>(
    rt: &R,
    pages: &'a Pages,
    words: &'a [String],
) -> Asked<'a> {
    match read_command(rt, pages, words) {
        Ok(asked) => asked,
        Err(error) => {
            let status = status_of(&error);
            match error.print(rt) {
                Ok(()) => Asked::Ended(status),
                Err(_) => {
                    let _ = eprintln!(rt; "{}: the output can't be written", pages.name.as_str());
                    Asked::Ended(status.max(1))
                }
            }
        }
    }
}

/// 0 where help or the version was asked for, 1 where there was no memory, 2 where the words are bad.
fn status_of(error: &Error) -> u8 {
    match error.kind() {
        ErrorKind::OutOfMemory => 1,
        _ => { if error.use_stderr() { 2 } else { 0 } }
    }
}

/// A flag.
fn flag<'a>(alloc: Global, name: &'a str, help: &'a str) -> Arg<'a> {
    Arg::new(alloc, name)
        .long(name)
        .action(ArgAction::SetTrue)
        .help(help)
}

/// A flag that is for a journal alone.
fn journal_flag<'a>(alloc: Global, name: &'a str, help: &'a str) -> Result<Arg<'a>, Error> {
    let flag = flag(alloc, name, help).requires_arg(JOURNAL)?;
    Ok(flag)
}

/// An option that has a name of this sort.
fn name_option<'a>(alloc: Global, name: &'a str, sort: &'a str, help: &'a str) -> Arg<'a> {
    Arg::new(alloc, name).long(name).value_name(sort).help(help)
}

/// The flag that asks for no bar, and for faults alone.
fn quiet_flag<'a>(alloc: Global) -> Arg<'a> {
    flag(
        alloc,
        QUIET,
        "Tells faults alone on standard error, and draws no bar",
    )
    .short('q')
}

/// The flag that asks for what was done.
fn verbose_flag<'a>(alloc: Global) -> Result<Arg<'a>, Error> {
    let help = "Tells on standard error also what was done";
    let verbose = flag(alloc, VERBOSE, help).short('v').conflicts_with(QUIET)?;
    Ok(verbose)
}

/// How much is told by these words.
fn verbosity_of(words: &ArgMatches<'_>) -> Verbosity {
    if words.get_flag(QUIET) {
        Verbosity::Quiet
    } else if words.get_flag(VERBOSE) {
        Verbosity::Verbose
    } else {
        Verbosity::Usual
    }
}

/// The command with one more word, if both could be made. So no function here but this one has a way out on which a
/// command or a word that is half made is let go of.
fn with<'a>(
    command: Result<Command<'a>, Error>,
    word: Result<Arg<'a>, Error>,
) -> Result<Command<'a>, Error> {
    let command = command?;
    match word {
        Ok(word) => Ok(command.arg(word)?),
        Err(error) => Err(error),
    }
}

/// The command with one more command below it, if both could be made.
fn with_command<'a>(
    command: Result<Command<'a>, Error>,
    below: Result<Command<'a>, Error>,
) -> Result<Command<'a>, Error> {
    let command = command?;
    match below {
        Ok(below) => Ok(command.subcommand(below)?),
        Err(error) => Err(error),
    }
}

/// The option of `run` that names the journal.
fn run_journal_option<'a>(alloc: Global) -> Result<Arg<'a>, Error> {
    let journal = name_option(alloc, JOURNAL, "FILE", JOURNAL_HELP).conflicts_with(LOG)?;
    Ok(journal)
}

/// The option that has from where on the replies to the lines of the journal are asked for.
fn from_option<'a>(alloc: Global, help: &'a str) -> Result<Arg<'a>, Error> {
    let from = whole_number(alloc, FROM).requires_arg(JOURNAL)?.help(help);
    Ok(from)
}

/// The option that has behind how many lines each a snapshot is kept.
fn snapshot_option<'a>(alloc: Global) -> Result<Arg<'a>, Error> {
    let snapshot = whole_number(alloc, SNAPSHOT)
        .value_parser(value_parser!(u64).range(1..))
        .requires_arg(JOURNAL)?
        .help(
            "Keeps a snapshot of all tenants in FILE.snapshot behind each N lines: the next run steps only the lines behind it",
        );
    Ok(snapshot)
}

/// The option that has after how many seconds each progress is told.
fn report_option<'a>(alloc: Global) -> Arg<'a> {
    whole_number(alloc, REPORT)
        .value_parser(value_parser!(u64).range(1..))
        .help(
            "Writes a line of key=value words to standard error each N seconds, also while no line comes, which tells how far the run is",
        )
}

/// The option that has on how many cores tenants are stepped.
fn cores_option<'a>(alloc: Global) -> Arg<'a> {
    whole_number(alloc, CORES)
        .value_parser(value_parser!(u64).range(1..=MAX_CORES))
        .help(
            "Steps tenants on N cores side by side; else on all, but on one where input or standard error is a terminal, or beside --log, --audit, --explain or a snapshot",
        )
}

/// The command with the flag that asks for the second handler, where there is one.
fn with_programs<'a>(
    alloc: Global,
    pages: &'a Pages,
    command: Result<Command<'a>, Error>,
) -> Result<Command<'a>, Error> {
    if !pages.has_programs {
        return command;
    }
    let help = "Hosts units that run programs of RV32IM too (kind rv32-1): see `load`";
    with(command, Ok(flag(alloc, PROGRAMS, help)))
}

/// The command `run`.
fn run_command<'a>(alloc: Global, pages: &'a Pages) -> Result<Command<'a>, Error> {
    let run = Command::new(alloc, "run")
        .about("Reads step lines from standard input and writes a reply line for each")
        .after_help(pages.run.as_str());
    let run = with(Ok(run), Ok(name_option(alloc, LOG, "FILE", LOG_HELP)));
    let run = with(run, run_journal_option(alloc));
    let run = with(run, from_option(alloc, RUN_FROM));
    let run = with(run, Ok(cores_option(alloc)));
    with_running(alloc, pages, run)
}

/// The command `drive`.
fn drive_command<'a>(alloc: Global, pages: &'a Pages) -> Result<Command<'a>, Error> {
    let drive = Command::new(alloc, "drive")
        .about(
            "Reads step lines, delivers the letters and releases what is firm behind each, and writes its reply line and a line for each text that left",
        )
        .after_help(pages.drive.as_str());
    let journal = name_option(alloc, JOURNAL, "FILE", JOURNAL_HELP);
    let drive = with(Ok(drive), Ok(journal));
    let drive = with(drive, from_option(alloc, DRIVE_FROM));
    let drive = with(drive, Ok(cores_option(alloc)));
    with_running(alloc, pages, drive)
}

/// The command with the words that `run` and `drive` share behind the first.
fn with_running<'a>(
    alloc: Global,
    pages: &'a Pages,
    command: Result<Command<'a>, Error>,
) -> Result<Command<'a>, Error> {
    let command = with(command, snapshot_option(alloc));
    let command = with(command, journal_flag(alloc, ADOPT, ADOPT_HELP));
    let command = with(
        command,
        journal_flag(alloc, ACCEPT_UPGRADE, ACCEPT_UPGRADE_HELP),
    );
    let command = with(command, Ok(flag(alloc, EXPLAIN, EXPLAIN_HELP)));
    let command = with(command, Ok(flag(alloc, STRICT, STRICT_HELP)));
    let command = with(command, Ok(report_option(alloc)));
    with_common(alloc, with_programs(alloc, pages, command))
}

/// The command with the flags that `run`, `drive` and `feeds` share.
fn with_common<'a>(
    alloc: Global,
    command: Result<Command<'a>, Error>,
) -> Result<Command<'a>, Error> {
    let command = with(command, Ok(flag(alloc, AUDIT, AUDIT_HELP)));
    let command = with(command, Ok(quiet_flag(alloc)));
    with(command, verbose_flag(alloc))
}

/// The command `journal`.
fn journal_command<'a>(alloc: Global) -> Result<Command<'a>, Error> {
    let journal = Command::new(alloc, "journal").about(
        "Tells how many lines and bytes a journal has, also while a run has it",
    );
    let file = Arg::new(alloc, FILE).required(true).help("The journal");
    with(with(Ok(journal), Ok(file)), Ok(json_flag(alloc)))
}

/// The command `trim`.
fn trim_command<'a>(alloc: Global, pages: &'a Pages) -> Result<Command<'a>, Error> {
    let trim = Command::new(alloc, "trim").about(
        "Takes the lines of a journal away that its snapshot stands behind: they can't be audited, nor answered again",
    );
    let file = Arg::new(alloc, FILE).required(true).help("The journal");
    let drive = flag(alloc, DRIVE, "The journal is one of `drive`");
    with_programs(alloc, pages, with(with(Ok(trim), Ok(file)), Ok(drive)))
}

/// The flag that asks for JSON.
fn json_flag<'a>(alloc: Global) -> Arg<'a> {
    flag(alloc, JSON, "Writes one JSON object a line")
}

/// The command `why`.
fn why_command<'a>(alloc: Global, pages: &'a Pages) -> Result<Command<'a>, Error> {
    let why = Command::new(alloc, "why").about(
        "Tells of each output that a unit holds what it waits for, and which steps would let it go or lose it",
    );
    let tenant = name_option(alloc, TENANT, "NAME", "The tenant").required(true);
    let unit = whole_number(alloc, UNIT)
        .required(true)
        .help("The unit's number, from 0");
    with_view(alloc, pages, with(with(Ok(why), Ok(tenant)), Ok(unit)))
}

/// The command `status`.
fn status_command<'a>(alloc: Global, pages: &'a Pages) -> Result<Command<'a>, Error> {
    let status = Command::new(alloc, "status").about(
        "Tells how each unit stands, what is stuck longest first, also while a run has the journal",
    );
    with_view(alloc, pages, Ok(status))
}

/// The command with the words that tell which lines are looked at, and how that is told.
fn with_view<'a>(
    alloc: Global,
    pages: &'a Pages,
    command: Result<Command<'a>, Error>,
) -> Result<Command<'a>, Error> {
    let journal = name_option(
        alloc,
        JOURNAL,
        "FILE",
        "Steps the lines that the journal FILE has; without it those of standard input",
    );
    let drive = flag(
        alloc,
        DRIVE,
        "Steps them as `drive` does; without it as `run`",
    );
    let command = with(with(command, Ok(journal)), Ok(drive));
    with_programs(alloc, pages, with(command, Ok(json_flag(alloc))))
}

/// The command `feeds`.
fn feeds_command<'a>(alloc: Global, pages: &'a Pages) -> Result<Command<'a>, Error> {
    let feeds = Command::new(alloc, "feeds").about(
        "Runs the step lines of 1 to 64 files as feeds, all at once, and then writes the reply lines, file by file",
    );
    let files = Arg::new(alloc, FILE)
        .required(true)
        .num_args(1..=MAX_FEEDS)
        .help("The step lines of a feed");
    with_common(
        alloc,
        with_programs(alloc, pages, with(Ok(feeds), Ok(files))),
    )
}

/// The command `draw`.
fn draw_command<'a>(alloc: Global, pages: &'a Pages) -> Result<Command<'a>, Error> {
    let draw = Command::new(alloc, "draw").about(
        "Runs the step lines of standard input, and draws a tenant's space-time diagram as SVG",
    );
    let tenant = name_option(
        alloc,
        TENANT,
        "NAME",
        "The tenant; without it the first one that is opened",
    );
    let to = name_option(
        alloc,
        TO,
        "FILE",
        "Makes FILE anew and draws to it; without it to standard output",
    );
    let html = flag(
        alloc,
        HTML,
        "Draws a page of HTML, with the diagram, that shows what depends on what",
    );
    let draw = with(with(Ok(draw), Ok(tenant)), Ok(to));
    let draw = with(draw, Ok(html));
    let draw = with(draw, Ok(first_option(alloc)));
    with_programs(alloc, pages, with(draw, last_option(alloc)))
}

/// The command `load`.
fn load_command<'a>(alloc: Global) -> Result<Command<'a>, Error> {
    let load = Command::new(alloc, "load").about(
        "Writes the step lines that load the image of a program into a unit of kind rv32-1",
    );
    let image = Arg::new(alloc, IMAGE)
        .required(true)
        .help("An ELF file for RV32IM, or an image as it lies in memory");
    let tenant = name_option(alloc, TENANT, "NAME", "The tenant").required(true);
    let unit = whole_number(alloc, UNIT)
        .required(true)
        .help("The unit's number, 0 to 255");
    let number = whole_number(alloc, NUMBER).help(
        "How many lines from outside the unit has received before; without it none",
    );
    let load = with(with(Ok(load), Ok(image)), Ok(tenant));
    with(with(load, Ok(unit)), Ok(number))
}

/// An option that has a whole number.
fn whole_number<'a>(alloc: Global, name: &'a str) -> Arg<'a> {
    Arg::new(alloc, name)
        .long(name)
        .value_name("N")
        .value_parser(value_parser!(u64))
}

/// The option of `draw` that has the first column.
fn first_option<'a>(alloc: Global) -> Arg<'a> {
    column_count(alloc, FROM).help("The first column that is drawn, from 0; 500 at most are drawn")
}

/// The option of `draw` that has how many last columns there are.
fn last_option<'a>(alloc: Global) -> Result<Arg<'a>, Error> {
    let last = column_count(alloc, LAST).conflicts_with(FROM)?.help(
        "How many last columns are drawn; without it and --from, 500",
    );
    Ok(last)
}

/// An option of `draw` that has a number of columns.
fn column_count<'a>(alloc: Global, name: &'a str) -> Arg<'a> {
    Arg::new(alloc, name)
        .long(name)
        .value_name("N")
        .value_parser(value_parser!(usize))
}

/// What `recall draw` is to draw, and where to.
fn draw_words<'a>(pages: &Pages, draw: &ArgMatches<'a>) -> DrawWords<'a> {
    let window = match (draw.get_one::<usize>(FROM), draw.get_one::<usize>(LAST)) {
        (Some(first), _) => Window::From(first),
        (None, Some(count)) => Window::Last(count),
        (None, None) => Window::Latest,
    };
    DrawWords {
        programs: asks_programs(pages, draw),
        tenant: draw.get_str(TENANT),
        to: draw.get_str(TO),
        window,
        html: draw.get_flag(HTML),
    }
}

/// The files that the words name.
fn files_of<'a>(alloc: Global, feeds: &ArgMatches<'a>) -> Result<Vec<&'a str>, Error> {
    let mut files = Vec::new(alloc);
    for file in feeds.get_strs(FILE).unwrap_or(&[]) {
        files.push(*file)?;
    }
    Ok(files)
}

/// What `run` is to do.
fn run_words<'a>(pages: &Pages, run: &ArgMatches<'a>) -> RunWords<'a> {
    RunWords {
        log: run.get_str(LOG),
        ..running_words(pages, run, false)
    }
}

/// What `run` or `drive` is to do, but for the log.
fn running_words<'a>(pages: &Pages, run: &ArgMatches<'a>, drives: bool) -> RunWords<'a> {
    RunWords {
        drives,
        programs: asks_programs(pages, run),
        audit: run.get_flag(AUDIT),
        explain: run.get_flag(EXPLAIN),
        strict: run.get_flag(STRICT),
        log: None,
        journal: run.get_str(JOURNAL),
        from: run.get_one::<u64>(FROM),
        snapshot: run.get_one::<u64>(SNAPSHOT),
        adopt: run.get_flag(ADOPT),
        accept_upgrade: run.get_flag(ACCEPT_UPGRADE),
        report: run.get_one::<u64>(REPORT),
        cores: run.get_one::<u64>(CORES),
        verbosity: verbosity_of(run),
    }
}

/// All commands of a program.
fn command_of<'a>(alloc: Global, pages: &'a Pages) -> Result<Command<'a>, Error> {
    let command = Command::new(alloc, pages.name.as_str())
        .no_binary_name(true)
        .bin_name(pages.name.as_str())?
        .about(pages.about.as_str())
        .version(pages.version.as_str())
        .after_help(pages.whole.as_str())
        .subcommand_required(true);
    let command = with_command(Ok(command), run_command(alloc, pages));
    let command = with_command(command, drive_command(alloc, pages));
    let command = with_command(command, feeds_command(alloc, pages));
    let command = with_command(command, draw_command(alloc, pages));
    let command = with_command(command, journal_command(alloc));
    let command = with_command(command, status_command(alloc, pages));
    let command = with_command(command, trim_command(alloc, pages));
    let command = with_command(command, why_command(alloc, pages));
    if pages.has_programs {
        with_command(command, load_command(alloc))
    } else {
        command
    }
}

/// What the words ask for.
fn read_command<'a, R: AllocGlobal>(
    rt: &R,
    pages: &'a Pages,
    words: &'a [String],
) -> Result<Asked<'a>, Error> {
    let alloc = rt.alloc();
    // The words' first is the name of the file that runs, which need not be the program's.
    let words = words.get(1..).unwrap_or(&[]);
    let matches = command_of(alloc, pages)?.try_get_matches_from(words)?;
    asked_by(alloc, pages, &matches)
}

/// What the command asks for that was found.
fn asked_by<'a>(
    alloc: Global,
    pages: &Pages,
    matches: &ArgMatches<'a>,
) -> Result<Asked<'a>, Error> {
    if let Some(run) = matches.subcommand_matches("run") {
        return Ok(Asked::Run(run_words(pages, run)));
    }
    if let Some(drive) = matches.subcommand_matches("drive") {
        return Ok(Asked::Run(running_words(pages, drive, true)));
    }
    if let Some(feeds) = matches.subcommand_matches("feeds") {
        return Ok(Asked::Feeds(feeds_words(alloc, pages, feeds)?));
    }
    if let Some(draw) = matches.subcommand_matches("draw") {
        return Ok(Asked::Draw(draw_words(pages, draw)));
    }
    if let Some(journal) = matches.subcommand_matches("journal") {
        return Ok(Asked::Journal(journal_words(journal)));
    }
    if let Some(status) = matches.subcommand_matches("status") {
        return Ok(Asked::Status(StatusWords {
            view: view_words(pages, status),
            json: status.get_flag(JSON),
        }));
    }
    if let Some(trim) = matches.subcommand_matches("trim") {
        return Ok(Asked::Trim(TrimWords {
            programs: asks_programs(pages, trim),
            drives: trim.get_flag(DRIVE),
            file: trim.get_str(FILE).unwrap_or(""),
        }));
    }
    if let Some(why) = matches.subcommand_matches("why") {
        return Ok(Asked::Why(why_words(pages, why)));
    }
    if let Some(load) = matches.subcommand_matches("load") {
        return Ok(Asked::Load(load_words(load)));
    }
    Ok(Asked::Ended(2))
}

/// What `feeds` is to do.
fn feeds_words<'a>(
    alloc: Global,
    pages: &Pages,
    feeds: &ArgMatches<'a>,
) -> Result<FeedsWords<'a>, Error> {
    Ok(FeedsWords {
        programs: asks_programs(pages, feeds),
        audit: feeds.get_flag(AUDIT),
        files: files_of(alloc, feeds)?,
        verbosity: verbosity_of(feeds),
    })
}

/// What `journal` is to tell.
fn journal_words<'a>(journal: &ArgMatches<'a>) -> JournalWords<'a> {
    JournalWords {
        file: journal.get_str(FILE).unwrap_or(""),
        json: journal.get_flag(JSON),
    }
}

/// What `why` is to tell.
fn why_words<'a>(pages: &Pages, why: &ArgMatches<'a>) -> WhyWords<'a> {
    WhyWords {
        view: view_words(pages, why),
        tenant: why.get_str(TENANT).unwrap_or(""),
        unit: why.get_one::<u64>(UNIT).unwrap_or(0),
        json: why.get_flag(JSON),
    }
}

/// Which lines `why` or `status` looks at.
fn view_words<'a>(pages: &Pages, view: &ArgMatches<'a>) -> ViewWords<'a> {
    ViewWords {
        drives: view.get_flag(DRIVE),
        programs: asks_programs(pages, view),
        journal: view.get_str(JOURNAL),
    }
}

/// Whether the second handler is asked for, where there is one.
fn asks_programs(pages: &Pages, words: &ArgMatches<'_>) -> bool {
    pages.has_programs && words.get_flag(PROGRAMS)
}

/// What `load` is to write lines for.
fn load_words<'a>(load: &ArgMatches<'a>) -> LoadWords<'a> {
    LoadWords {
        image: load.get_str(IMAGE).unwrap_or(""),
        tenant: load.get_str(TENANT).unwrap_or(""),
        unit: load.get_one::<u64>(UNIT).unwrap_or(0),
        number: load.get_one::<u64>(NUMBER).unwrap_or(0),
    }
}
