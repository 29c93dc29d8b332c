//! `load`.

use crate::image::Image;
use crate::unfit::Unfit;
use base64::engine::general_purpose::STANDARD;
use log::{Log, error};
use model::TenantName;
use std::alloc::{AllocError, Global};
use std::fs::{File, Files};
use std::io::{self, Read, Write};
use std::time::Clock;
use terminal::Patient;
use words::LoadWords;

/// Bytes of an image in a line, at most: with their mark, and in base64, they make a text of 4,093 bytes.
const PART_BYTES: usize = 3069;

/// Bytes of a file that is loaded, at most: what debuggers want of an ELF file is much longer than an image.
const MAX_FILE_BYTES: u64 = 67_108_864;

/// The greatest number of a unit.
const LAST_UNIT: u64 = 255;

/// The greatest number of a line from outside.
const LAST_NUMBER: u64 = 4_294_967_295;

/// Whom an image is for.
#[derive(Clone, Copy)]
struct Addressee<'a> {
    tenant: &'a str,
    unit: u64,
}

/// The bytes of a file; nothing where there are too many, as of a device without an end.
fn read_file<R: Files<File = File> + AllocGlobal>(
    rt: &R,
    path: &str,
) -> io::Result<Option<Vec<u8>>> {
    let mut bytes = Vec::new(rt.alloc());
    let file = File::open(rt, path)?;
    file.take(MAX_FILE_BYTES + 1).read_to_end(&mut bytes)?;
    Ok((bytes.len() as u64 <= MAX_FILE_BYTES).then_some(bytes))
}

/// `load`: writes the step lines that load an image to standard output, and tells the status to end with: 0 where
/// they are written, 1 where the file can't be read or has no image or the output fails, 2 where a word is bad.
pub fn load_on<R: Files<File = File> + Clock + Print + AllocGlobal, L: Log>(
    rt: &R,
    told: &L,
    load: &LoadWords<'_>,
) -> u8 {
    if !are_fit(told, load) {
        return 2;
    }
    let path = load.image;
    let file = match read_file(rt, path) {
        Ok(Some(file)) => file,
        Ok(None) => return too_large(told, path),
        Err(error) => return cannot_read(told, path, &error),
    };
    let image = match Image::of(rt.alloc(), file) {
        Ok(image) => image,
        Err(unfit) => return cannot_load(told, path, &unfit),
    };
    let mut output = Patient::new(rt, io::writer(rt));
    match put_lines(rt.alloc(), &mut output, load, image.as_slice()) {
        Ok(()) => 0,
        Err(_) => no_output(told),
    }
}

fn too_large<L: Log>(told: &L, path: &str) -> u8 {
    error!(told; "{path:?} can't be loaded: it has more than {MAX_FILE_BYTES} bytes");
    1
}

fn cannot_read<L: Log>(told: &L, path: &str, error: &io::Error) -> u8 {
    error!(told; "can't read the image {path:?}: {error}");
    1
}

fn cannot_load<L: Log>(told: &L, path: &str, why: &Unfit) -> u8 {
    error!(told; "{path:?} can't be loaded: {why}");
    1
}

fn no_output<L: Log>(told: &L) -> u8 {
    error!(told; "the output can't be written");
    1
}

/// Whether tenant, unit and number are such as a line may have. Tells which are not.
fn are_fit<L: Log>(told: &L, load: &LoadWords<'_>) -> bool {
    let tenant = load.tenant;
    if TenantName::new(tenant).is_none() {
        error!(told; "{tenant:?} is no name of a tenant: it has 1 to 32 of a to z, 0 to 9 and hyphen");
        return false;
    }
    let unit = load.unit;
    if unit > LAST_UNIT {
        error!(told; "there is no unit {unit}: units have numbers from 0 to 255");
        return false;
    }
    let number = load.number;
    if number > LAST_NUMBER - MAX_PARTS {
        error!(told; "the number {number} is too large: lines from outside have numbers up to 4294967295");
        return false;
    }
    true
}

/// Lines of an image, at most.
const MAX_PARTS: u64 = 85;

/// Writes a line for each part of the image.
fn put_lines<W: Write>(
    alloc: Global,
    output: &mut W,
    load: &LoadWords<'_>,
    image: &[u8],
) -> io::Result<()> {
    let addressee = Addressee {
        tenant: load.tenant,
        unit: load.unit,
    };
    let last = image.len().saturating_sub(1) / PART_BYTES;
    for (at, part) in image.chunks(PART_BYTES).enumerate() {
        let number = load.number.saturating_add(at as u64);
        let mark = if at == last { '=' } else { '+' };
        put_line(alloc, output, addressee, number, mark, part)?;
    }
    output.flush()
}

/// Writes the line of one part.
fn put_line<W: Write>(
    alloc: Global,
    output: &mut W,
    addressee: Addressee<'_>,
    number: u64,
    mark: char,
    part: &[u8],
) -> io::Result<()> {
    let line = line_of(alloc, addressee, number, mark, part)?;
    output.write_all(line.as_bytes())
}

/// The line of one part.
fn line_of(
    alloc: Global,
    addressee: Addressee<'_>,
    number: u64,
    mark: char,
    part: &[u8],
) -> Result<String, AllocError> {
    let Addressee { tenant, unit } = addressee;
    let coded = STANDARD.encode(alloc, part)?;
    format!(in alloc;
        "{{\"do\":\"post\",\"number\":{number},\"tenant\":\"{tenant}\",\"text\":\"{mark}{coded}\",\"unit\":{unit}}}\n"
    )
}
