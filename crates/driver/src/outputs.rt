//! The line of a text that left.

ghost use Rattle.std.specs.Prelude.{◌≡◌, ◌++◌, [], IfOk, OnOk, decimal, flat_map};
ghost use Rattle.json.specs.Print.{quoted as quoted_text};
ghost use Rattle.driver.specs.Driving.{Wrote, output_line, output_lines};

use itoa::Buffer;
use json::Writer;
use lines::{Counted, ServeFault, put_bytes};
use model::{NoMemory, TenantName, Text, Unit};
use std::io::Write;
use std::mem;

fn words(out: &mut Vec<u8>, text: &str) -> Result<(), NoMemory>
    ensures { OnOk result (out.new.items ≡ out.old.items ++ text.now) }
{
    out.extend_from_slice(text.as_bytes())?;
    Ok(())
}

/// A text in quotes, with escapes where it needs them.
fn quoted(out: &mut Vec<u8>, text: &str) -> Result<(), NoMemory>
    ensures { OnOk result (out.new.items ≡ out.old.items ++ quoted_text text.now) }
{
    let empty = Vec::new(*out.allocator());
    let mut w = Writer::new(mem::replace(out, empty));
    w.string(text)?;
    *out = w.into_inner();
    Ok(())
}

fn number(out: &mut Vec<u8>, n: u64) -> Result<(), NoMemory>
    ensures { OnOk result (out.new.items ≡ out.old.items ++ decimal n) }
{
    let mut room = Buffer::new();
    words(out, room.format(n))
}

/// The line of a text that left this unit, with its line feed, in an empty buffer.
#[tactic(auto, using(crate::proofs::Lines::output_line_parts))]
fn line_of(room: Vec<u8>, tenant: &TenantName, unit: Unit, text: &Text) -> Result<Vec<u8>, NoMemory>
    requires { room.items ≡ [] }
    ensures { IfOk result (λ line. line.items ≡ output_line tenant.now unit text.now) }
{
    let mut line = room;
    words(&mut line, "{\"output\":")?;
    quoted(&mut line, text.as_str())?;
    words(&mut line, ",\"tenant\":")?;
    quoted(&mut line, tenant.as_str())?;
    words(&mut line, ",\"unit\":")?;
    number(&mut line, u64::from(unit.number()))?;
    words(&mut line, "}\n")?;
    Ok(line)
}

/// Writes the line of a text that left this unit.
fn put_output<W: Write>(
    writer: &mut Counted<W>,
    text: &mut Vec<u8>,
    tenant: &TenantName,
    unit: Unit,
    output: &Text,
) -> Result<(), ServeFault>
    ensures { Wrote result (output_line tenant.now unit output.now)
        (W.contents writer.old.inner) (W.contents writer.new.inner) writer.old.failed writer.new.failed }
{
    let empty = Vec::new(*text.allocator());
    let mut room = mem::replace(text, empty);
    room.clear();
    let Ok(line) = line_of(room, tenant, unit, output) else {
        return Err(ServeFault::NoMemory);
    };
    let put = put_bytes(writer, line.as_slice());
    *text = line;
    put
}

/// Writes the line of each text that left this unit, in order.
pub(crate) fn put_outputs<W: Write>(
    writer: &mut Counted<W>,
    text: &mut Vec<u8>,
    tenant: &TenantName,
    unit: Unit,
    outputs: &[Text],
) -> Result<(), ServeFault>
    ensures { Wrote result (output_lines tenant.now unit outputs.now)
        (W.contents writer.old.inner) (W.contents writer.new.inner) writer.old.failed writer.new.failed }
{
    for output in outputs {
        put_output(writer, text, tenant, unit, output)?;
    }
    Ok(())
}
