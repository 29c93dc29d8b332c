//! The reply lines of lines that give no step.

ghost use Rattle.std.specs.Prelude.{◌≡◌, IfOk};
ghost use Rattle.forms.specs.declared.fault.LineFault.TheVariants.{Bad, NoMemory};
ghost use Rattle.lines.specs.Serving.{reply_line, reply_upon};

use lines::{LineFault, fault_reply};
use model::NoMemory as OutOfMemory;
use quick_forms::write_reply;
use std::alloc::Global;

/// The reply line of each fault of a line, with its line feed.
#[derive(Drop)]
pub(crate) struct FaultLines {
    bad: Vec<u8>,
    lost: Vec<u8>,
    ghost bad_is: { bad.items ≡ reply_line (reply_upon Bad) },
    ghost lost_is: { lost.items ≡ reply_line (reply_upon NoMemory) },
}

impl FaultLines {
    /// All of them. `NoMemory` comes where there is none for a text.
    pub(crate) fn new(alloc: Global) -> Result<FaultLines, OutOfMemory> {
        let bad = fault_line(alloc, LineFault::Bad)?;
        let lost = fault_line(alloc, LineFault::NoMemory)?;
        Ok(FaultLines { bad, lost })
    }

    /// That of one fault.
    pub(crate) fn of(&self, fault: LineFault) -> &[u8]
        ensures { result.now ≡ reply_line (reply_upon fault) }
    {
        match fault {
            LineFault::Bad => self.bad.as_slice(),
            LineFault::NoMemory => self.lost.as_slice(),
        }
    }
}

/// The reply line of a fault.
fn fault_line(alloc: Global, fault: LineFault) -> Result<Vec<u8>, OutOfMemory>
    ensures { IfOk result (λ line. line.items ≡ reply_line (reply_upon fault)) }
{
    let mut line = Vec::new(alloc);
    write_reply(&mut line, &fault_reply(fault))?;
    line.push(b'\n')?;
    Ok(line)
}
