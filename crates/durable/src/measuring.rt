//! The whole lines of a journal.

ghost use Rattle.std.specs.Prelude.{◌≡◌, ◌+◌, ◌<◌, ◌^◌, ◌∷◌, [], IfOk, IfSome, OnOk, length};
ghost use Rattle.std.specs.Io.KnownBytes.{Consumes};
ghost use Rattle.durable.specs.Measuring.{IsMeasured, Measures, MeasuresBlock};

use std::io;
use std::io::{BufRead, ErrorKind};
use written::is_interrupted;

/// What a journal has.
#[derive(Clone, Copy, Debug)]
pub struct Extent {
    /// The whole lines.
    pub lines: u64,
    /// Their bytes.
    pub whole: u64,
    /// The bytes behind them, of a line that isn't whole.
    pub torn: u64,
    /// The bytes of the lines before the one that was asked for, or of all where there are fewer.
    pub before: u64,
}

/// Reads all bytes, and counts whole lines. `from` is the line that is asked for: those before it
/// are `from` lines.
///
/// An error is that of the reader, or comes after 2^64 - 1 bytes.
pub fn measure<R: BufRead>(reader: &mut R, from: u64) -> io::Result<Extent>
    ensures { IfOk result (λ m. IfSome (R.remaining reader.old) (λ all. IsMeasured all from m)) }
{
    let mut measured = Extent {
        lines: 0,
        whole: 0,
        torn: 0,
        before: 0,
    };
    for _ in 0..u64::MAX {
        if measure_block(reader, from, &mut measured)? {
            return Ok(measured);
        }
    }
    Err(too_long())
}

/// Measures what the reader shows, and tells whether it is at its end.
fn measure_block<R: BufRead>(reader: &mut R, from: u64, measured: &mut Extent) -> io::Result<bool>
    ensures { IfOk result (λ is_end.
        MeasuresBlock (R.remaining reader.old) (R.remaining reader.new) from measured.old measured.new is_end) }
{
    let block = match reader.fill_buf() {
        Ok(block) => block,
        Err(e) => {
            return if is_interrupted(&e) {
                Ok(false)
            } else {
                Err(e)
            };
        }
    };
    let count = block.len();
    if count == 0 {
        return Ok(true);
    }
    let Extent { whole, torn, .. } = *measured;
    if u64::MAX - torn < whole || u64::MAX - torn - whole < count as u64 {
        return Err(too_long());
    }
    measure_bytes(block, from, measured);
    reader.consume(count);
    Ok(false)
}

/// Measures these bytes too.
fn measure_bytes(bytes: &[u8], from: u64, measured: &mut Extent)
    requires { measured.old.whole + measured.old.torn + length bytes.now < 2 ^ 64 }
    ensures { Measures from bytes.now measured.old measured.new }
{
    for byte in bytes {
        measure_byte(*byte, from, measured);
    }
}

/// Measures one byte more.
fn measure_byte(byte: u8, from: u64, measured: &mut Extent)
    requires { measured.old.whole + measured.old.torn + 1 < 2 ^ 64 }
    ensures measured { Measures from (byte ∷ []) measured.old measured.new }
    ensures bytes { measured.new.whole + measured.new.torn ≡ measured.old.whole + measured.old.torn + 1 }
{
    let Extent { whole, torn, .. } = *measured;
    if byte != b'\n' {
        measured.torn = torn + 1;
        return;
    }
    measured.whole = whole + torn + 1;
    measured.torn = 0;
    if measured.lines < from {
        measured.before = measured.whole;
    }
    measured.lines = measured.lines.saturating_add(1);
}

fn too_long() -> io::Error {
    io::Error::new(ErrorKind::FileTooLarge, "the journal is too long")
}
