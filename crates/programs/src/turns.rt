//! Texts for a program.

ghost use Rattle.std.specs.Prelude.{◌≡◌, ◌≤◌, IfOk, Ok, Err, [], length};
ghost use Rattle.programs.specs.Turns.{source_number, started, turn_of, ending_text, worked, process_turn};
ghost use Rattle.programs.specs.Courses.{run};

use crate::course::Course;
use crate::layout::{ENTRY, RETURN_AT, TEXT_AT, TEXT_BYTES};
use crate::loading::{is_part, load, say};
use crate::process::Process;
use crate::trap::{Ending, Halt};
use handler::Turn;
use model::{NoMemory, Seat, Source};
use riscv::Machine;
use std::alloc::Global;

fn number_of(source: Source) -> u32
    ensures { result ≡ source_number source }
{
    match source {
        Source::Outside => 0xffff_ffff,
        Source::Unit(unit) => u32::from(unit.number()),
    }
}

/// The machine at the beginning of a turn.
fn start(
    alloc: Global,
    seat: Seat,
    process: &Process,
    source: Source,
    text: &str,
) -> Result<Machine, NoMemory>
    requires { length text.now ≤ 4096 }
    ensures { IfOk result (λ m. m ≡ started seat process.now source text.now) }
{
    let mut memory = process.memory.copy(alloc)?;
    memory.set_bytes(alloc, TEXT_AT, text.as_bytes())?;
    let mut registers = [0; 32];
    registers[1] = RETURN_AT;
    registers[2] = TEXT_AT;
    registers[10] = TEXT_AT;
    registers[11] = text.len() as u32;
    registers[12] = number_of(source);
    registers[13] = u32::from(seat.unit.number());
    registers[14] = u32::from(seat.home);
    Ok(Machine {
        registers,
        counter: ENTRY,
        memory,
    })
}

/// The turn of a course that came to its end.
fn finish(alloc: Global, process: &Process, course: Course) -> Result<Turn<Process>, NoMemory>
    ensures { IfOk result (λ t. t ≡ turn_of process.now (Ok course)) }
{
    let (machine, sends, outputs) = course.into_parts();
    let Machine {
        registers: _,
        counter: _,
        memory,
    } = machine;
    let mut memory = memory;
    memory.share(alloc)?;
    Ok(Turn {
        state: process.with_memory(alloc, memory)?,
        sends,
        outputs,
    })
}

/// The turn of a course that was cut: the state stays, and one text is put out.
fn give_up(alloc: Global, process: &Process, ending: Ending) -> Result<Turn<Process>, NoMemory>
    ensures { IfOk result (λ t. t ≡ turn_of process.now (Err ending)) }
{
    let same = process.copy(alloc)?;
    match ending {
        Ending::Trapped(trap) => say(alloc, same, trap.text(alloc)?.as_str()),
        Ending::Refused(text) => say(alloc, same, text.as_str()),
    }
}

/// The turn of a machine that stands at the beginning of one.
fn run_from(alloc: Global, process: &Process, machine: Machine) -> Result<Turn<Process>, NoMemory>
    ensures { IfOk result
        (λ t. t ≡ turn_of process.now (run 1000000 (record { machine = machine; sends = []; outputs = [] }))) }
{
    match Course::new(alloc, machine).run(alloc) {
        Ok(course) => finish(alloc, process, course),
        Err(Halt::NoMemory) => Err(NoMemory),
        Err(Halt::Ended(ending)) => give_up(alloc, process, ending),
    }
}

/// The turn upon a text for the program.
#[tactic(auto, unfolding(crate::specs::Turns::worked))]
fn work(
    alloc: Global,
    seat: Seat,
    process: &Process,
    source: Source,
    text: &str,
) -> Result<Turn<Process>, NoMemory>
    ensures { IfOk result (λ t. t ≡ worked seat process.now source text.now) }
{
    if !process.has_program {
        return say(alloc, process.copy(alloc)?, "no program");
    }
    if text.len() > TEXT_BYTES as usize {
        return say(alloc, process.copy(alloc)?, "text too long");
    }
    let machine = start(alloc, seat, process, source, text)?;
    run_from(alloc, process, machine)
}

/// The turn of a unit that runs a program.
pub(crate) fn process_turn(
    alloc: Global,
    seat: Seat,
    process: &Process,
    source: Source,
    text: &str,
) -> Result<Turn<Process>, NoMemory>
    ensures { IfOk result (λ t. t ≡ process_turn seat process.now source text.now) }
{
    let is_part = match source {
        Source::Outside => is_part(process, text),
        Source::Unit(_) => false,
    };
    if is_part {
        load(alloc, process, text)
    } else {
        work(alloc, seat, process, source, text)
    }
}
