//! The program `recall`: step lines in, reply lines out, with the sample handler, or with units that run programs too.
//!
//! All of it stands in `host_cli`, which has the words, streams and files of any handler.
#![tactic(auto)]

use handler::Sample;
use host_cli::{Hosting, Program, Terminals, run_either};
use programs::Programs;
use std::io::IsTerminal;
use std::process::ExitCode;

/// What the program tells of itself.
const RECALL: Program<'static> = Program {
    name: "recall",
    about: "A multi-tenant optimistic recovery runtime",
    version: "0.9.12",
    handler: "sample",
    handler_version: "1",
    kinds: &["echo", "relay", "count", "adder", "tee"],
    programs: Some(Hosting {
        handler: "programs",
        handler_version: "1",
        kinds: &["echo", "relay", "count", "adder", "tee", "rv32-1"],
    }),
    example: r#"{"do":"open","tenant":"a","units":["echo"]}"#,
};

fn main(rt: HostRuntime) -> ExitCode {
    let terminals = Terminals {
        input: rt.stdin().is_terminal(),
        errors: rt.stderr().is_terminal(),
    };
    ExitCode::from(run_either(&rt, Sample, Programs, &RECALL, terminals))
}
