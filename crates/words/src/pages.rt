//! The texts of a program that are longer than a line.

use crate::program::Program;
use std::alloc::{AllocError, Global};

/// The toolchain by which the program was proved.
const KIT: &str = "rattle-kit-13f logic dac8208d650f15bf";

/// The forms of the step lines.
const STEPS: &str = r#"Steps, one JSON object a line, keys in any order:
  {"do":"open","tenant":T,"units":[KIND,..]}   and, if wanted, "optimism":0 to 16
                                               and "quota":{"held":N,"letters":N,"volatile":N}
  {"do":"join","kind":KIND,"tenant":T}
  {"do":"post","number":N,"tenant":T,"text":TEXT,"unit":U}
  {"do":"deliver","letter":L,"tenant":T}
  {"do":STEP,"tenant":T,"unit":U}              STEP is flush, checkpoint, kill, restart,
                                               notice, release or status
"#;

/// What `drive` does behind each line.
const OUTPUTS: &str =
    r#"Behind each line of a tenant its letters are delivered, what its units took is logged, and what is
firm is released, a line for each text behind the reply:
  {"output":TEXT,"tenant":T,"unit":U}
"#;

/// What the statuses say.
const STATUSES: &str = "\
Exit status:
  0  each line is answered (a refusal is a reply)
  1  a file, the input, the output or memory failed, or an audit isn't ok
  2  the words are bad
  3  with --strict, where a line was refused
";

/// What help and `--version` print, which the program's own words are part of.
#[derive(Drop)]
pub struct Pages {
    /// The program's name on the command line.
    pub name: String,
    /// What the program is, in one line.
    pub about: String,
    /// The version, and the toolchain by which the program was proved.
    pub version: String,
    /// What stands behind the help of `run`.
    pub run: String,
    /// What stands behind the help of `drive`.
    pub drive: String,
    /// What stands behind the help of the whole.
    pub whole: String,
    /// Whether there is a second handler, and the words for it.
    pub has_programs: bool,
}

impl Pages {
    /// The pages of a program. `AllocError` comes where there is no memory for them.
    pub fn new(alloc: Global, program: &Program<'_>) -> Result<Pages, AllocError> {
        let mut pages = Pages {
            name: String::new(alloc),
            about: String::new(alloc),
            version: String::new(alloc),
            run: String::new(alloc),
            drive: String::new(alloc),
            whole: String::new(alloc),
            has_programs: program.programs.is_some(),
        };
        pages.write(program)?;
        Ok(pages)
    }

    /// Writes the texts of a program to empty pages.
    fn write(&mut self, program: &Program<'_>) -> Result<(), AllocError> {
        self.name.push_str(program.name)?;
        self.about.push_str(program.about)?;
        write!(self.version, "{}\nproved with {KIT}", program.version)?;
        add_stepping(&mut self.run, program)?;
        self.run.push_str("\n")?;
        add_example(&mut self.run, program)?;
        self.drive.push_str(OUTPUTS)?;
        self.drive.push_str("\n")?;
        add_stepping(&mut self.drive, program)?;
        add_example(&mut self.whole, program)
    }
}

/// Adds an example of a line that `run` answers.
fn add_example(page: &mut String, program: &Program<'_>) -> Result<(), AllocError> {
    let (name, example) = (program.name, program.example);
    write!(page, "Example:\n  printf '%s\\n' '{example}' | {name} run")
}

/// Adds what `run` and `drive` share: the forms of the step lines, the kinds of units and the statuses.
fn add_stepping(page: &mut String, program: &Program<'_>) -> Result<(), AllocError> {
    page.push_str(STEPS)?;
    page.push_str("\nKinds: ")?;
    add_kinds(page, program.kinds)?;
    if let Some(hosting) = program.programs {
        page.push_str("\nWith --programs: ")?;
        add_kinds(page, hosting.kinds)?;
    }
    page.push_str("\n\n")?;
    page.push_str(STATUSES)
}

/// Adds the kinds in a row.
fn add_kinds(page: &mut String, kinds: &[&str]) -> Result<(), AllocError> {
    let start = page.len();
    for kind in kinds {
        if page.len() > start {
            page.push_str(", ")?;
        }
        page.push_str(kind)?;
    }
    Ok(())
}
