//! `draw`.

ghost use Rattle.std.specs.Prelude.{◌≡◌, []};

use crate::diagram_of::diagram_of;
use files::{Unfit, why_unfit};
use handler::Handler;
use log::{Log, error};
use shared_log::Store;
use std::fs::{File, Files, OpenOptions};
use std::io::{self, ErrorKind, Input, Write};
use std::time::Clock;
use terminal::{Patient, input_size};
use words::DrawWords;

/// `draw`: draws to the file that is named, or to standard output, what the steps of the input come to over a store
/// that acknowledged nothing yet. Where it `shows`, bars tell how far it is. Tells the status to end with: 0 where it
/// is drawn, 1 where the lines can't be read, the tenant that is named isn't open, there is no memory, or the file
/// can't be made or the output fails.
pub fn draw_on<
    R: Files<File = File> + Clock + Print + Eprint + Input + AllocGlobal,
    L: Log,
    H: Handler + Clone,
    S: Store,
>(rt: &R, told: &L, handler: H, store: S, draw: &DrawWords<'_>, shows: bool) -> u8
    requires { S.log store ≡ [] }
{
    let size = if shows { input_size(rt) } else { None };
    let input = Patient::new(rt, rt.reader());
    let Some(diagram) = diagram_of(rt, told, rt.alloc(), handler, store, input, draw, size) else {
        return 1;
    };
    let Some(path) = draw.to else {
        let mut output = Patient::new(rt, io::writer(rt));
        return put_diagram(told, &mut output, diagram.as_str());
    };
    match make_picture(rt, path) {
        Ok(mut file) => put_diagram(told, &mut file, diagram.as_str()),
        Err(error) => cannot_make(told, path, &error),
    }
}

fn cannot_make<L: Log>(told: &L, path: &str, error: &io::Error) -> u8 {
    error!(told; "can't make {path:?}: {error}");
    1
}

/// Makes the picture's file anew, which must not be the input.
fn make_picture<R: Files<File = File>>(rt: &R, path: &str) -> io::Result<File> {
    let mut options = OpenOptions::new();
    options.write(true).create(true);
    let file = options.open(rt, path)?;
    let found = file.metadata()?;
    if why_unfit(rt, &found) == Some(Unfit::Input) {
        return Err(io::Error::new(ErrorKind::InvalidInput, "it is the input of this run"));
    }
    if found.is_file() {
        file.set_len(0)?;
    }
    Ok(file)
}

/// Writes a diagram, and tells the status to end with.
fn put_diagram<L: Log, W: Write>(told: &L, writer: &mut W, diagram: &str) -> u8 {
    if writer.write_all(diagram.as_bytes()).is_err() || writer.flush().is_err() {
        error!(told; "the diagram can't be written");
        return 1;
    }
    0
}
