//! A turn on its way.

ghost use Rattle.std.specs.Prelude.{◌≡◌, ◌<◌, Err, []};
ghost use Rattle.riscv.specs.Machines.{stepped, Stopped, Runs};
ghost use Rattle.programs.specs.Courses.{told, put_out, sent, refused, full, served, gone_on, ended, run, Gives, Ends};

use crate::layout::{BUDGET, RETURN_AT, TEXT_BYTES, TURN_TEXTS};
use crate::trap::{Cut, Ending, Fault, Halt, Reason, Trap};
use model::{Text, Unit};
use riscv::{Exception, MEMORY_BYTES, Machine, Ran, Stop};
use std::alloc::Global;
use std::marker::Model;
use std::str;

/// The machine, and what was sent and put out so far.
#[derive(Drop)]
pub(crate) struct Course {
    machine: Machine,
    sends: Vec<(Unit, Text)>,
    outputs: Vec<Text>,
}

impl Model for Course {
    ghost use Rattle.programs.specs.Courses.{Course as CourseOf};

    ghost Value = { CourseOf };

    ghost view = { λ c. record { machine = c.machine; sends = c.sends.items; outputs = c.outputs.items } };
}

/// A text in the memory of a machine.
#[tactic(auto, using(crate::proofs::Runs::utf8_test, crate::proofs::Runs::not_utf8_test), unfolding(crate::specs::Courses::told))]
fn tell(machine: &Machine, alloc: Global, at: u32, len: u32) -> Result<Text, Fault>
    ensures { Gives (λ t. t) result (told machine.now.memory at len) }
{
    if len > TEXT_BYTES {
        return Err(Reason::TooLong.fault());
    }
    if u64::from(at) + u64::from(len) > MEMORY_BYTES as u64 {
        return Err(Reason::OutOfRange.fault());
    }
    let bytes = machine.memory.bytes(alloc, at, len)?;
    match str::from_utf8(bytes.as_slice()) {
        Ok(text) => Ok(Text::of(alloc, text)?),
        Err(_) => Err(Reason::NotUtf8.fault()),
    }
}

/// How a turn ended that was cut at an address.
fn ending(cut: Cut, at: u32) -> Ending
    ensures { result ≡ ended cut at }
{
    match cut {
        Cut::Trapped(reason) => Ending::Trapped(Trap { reason, at }),
        Cut::Refused(text) => Ending::Refused(text),
    }
}

impl Course {
    /// A turn of this machine.
    pub(crate) fn new(alloc: Global, machine: Machine) -> Course
        ensures { result ≡ record { machine = machine; sends = []; outputs = [] } }
    {
        Course {
            machine,
            sends: Vec::new(alloc),
            outputs: Vec::new(alloc),
        }
    }

    /// The address of the instruction that comes.
    #[inline(always)]
    fn counter(&self) -> u32
        ensures { result ≡ self.now.machine.counter }
    {
        self.machine.counter
    }

    /// The machine, the sends and the outputs.
    pub(crate) fn into_parts(self) -> (Machine, Vec<(Unit, Text)>, Vec<Text>)
        ensures machine { result.0 ≡ self.machine }
        ensures sends { result.1.items ≡ self.sends }
        ensures outputs { result.2.items ≡ self.outputs }
    {
        let Course {
            machine,
            sends,
            outputs,
        } = self;
        (machine, sends, outputs)
    }

    /// Whether one more text is too many.
    fn is_full(&self) -> bool
        ensures { result ≡ full self.now }
    {
        self.sends.len() + self.outputs.len() >= TURN_TEXTS
    }

    /// Puts out the text at an address.
    fn put_out(&mut self, alloc: Global, at: u32, len: u32) -> Result<(), Fault>
        ensures { Gives (λ _. self.new) result (put_out self.old (told self.old.machine.memory at len)) }
    {
        if self.is_full() {
            return Err(Reason::TooMany.fault());
        }
        let text = tell(&self.machine, alloc, at, len)?;
        self.outputs.push(text)?;
        self.machine.advance();
        Ok(())
    }

    /// Sends the text at an address.
    fn send(&mut self, alloc: Global, unit: u32, at: u32, len: u32) -> Result<(), Fault>
        ensures { Gives (λ _. self.new) result (sent self.old unit (told self.old.machine.memory at len)) }
    {
        if self.is_full() {
            return Err(Reason::TooMany.fault());
        }
        if unit > 255 {
            return Err(Reason::NoUnit.fault());
        }
        let text = tell(&self.machine, alloc, at, len)?;
        self.sends.push((Unit::new(unit as u8), text))?;
        self.machine.advance();
        Ok(())
    }

    /// Ends the turn with the text at an address, which is put out in place of all else.
    fn refuse(&self, alloc: Global, at: u32, len: u32) -> Fault
        ensures { Gives (λ c. c) (Err result) (refused self.now (told self.now.machine.memory at len)) }
    {
        match tell(&self.machine, alloc, at, len) {
            Ok(text) => Fault::For(Cut::Refused(text)),
            Err(fault) => fault,
        }
    }

    /// Does what an `ecall` asks for.
    #[tactic(auto, unfolding(crate::specs::Courses::served))]
    fn serve(&mut self, alloc: Global) -> Result<(), Fault>
        ensures { Gives (λ _. self.new) result (served self.old) }
    {
        let a0 = self.machine.registers[10];
        let a1 = self.machine.registers[11];
        let a2 = self.machine.registers[12];
        match self.machine.registers[17] {
            1 => self.put_out(alloc, a0, a1),
            2 => self.send(alloc, a0, a1, a2),
            3 => Err(self.refuse(alloc, a0, a1)),
            _ => Err(Reason::UnknownCall.fault()),
        }
    }

    /// Lets the machine run, for so many instructions at most.
    fn proceed(&mut self, alloc: Global, most: u32) -> Ran
        ensures runs { Runs result.done most result.stop self.old.machine self.new.machine }
        ensures same { self.new ≡ record self.old { machine = self.new.machine } }
    {
        self.machine.run(alloc, most)
    }

    /// Does what an exception asks for.
    #[tactic(auto, using(crate::proofs::Runs::gone_on_call, crate::proofs::Runs::gone_on_trap))]
    fn raise(&mut self, alloc: Global, exception: Exception) -> Result<(), Fault>
        requires { stepped self.old.machine ≡ Err exception }
        ensures { Gives (λ _. self.new) result (gone_on self.old) }
    {
        match exception {
            Exception::EnvironmentCall => self.serve(alloc),
            _ => Err(Reason::Raised(exception).fault()),
        }
    }

    /// Does what comes where the machine stopped.
    fn go_on(&mut self, alloc: Global, stop: Stop) -> Result<(), Fault>
        requires { Stopped stop self.old.machine }
        ensures { Gives (λ _. self.new) result (gone_on self.old) }
    {
        match stop {
            Stop::NoMemory => Err(Fault::NoMemory),
            Stop::Raised(exception) => self.raise(alloc, exception),
        }
    }

    /// Runs until the address to return to comes, for 1,000,000 instructions at most.
    pub(crate) fn run(self, alloc: Global) -> Result<Course, Halt>
        ensures { Ends (λ c. c) result (run 1000000 self) }
    {
        let mut course = self;
        let mut left = BUDGET;
        while left > 0 {
            let ran = course.proceed(alloc, left);
            left -= ran.done;
            let at = course.counter();
            if let Some(stop) = ran.stop {
                if at == RETURN_AT {
                    return Ok(course);
                }
                match course.go_on(alloc, stop) {
                    Ok(()) => left -= 1,
                    Err(Fault::NoMemory) => return Err(Halt::NoMemory),
                    Err(Fault::For(cut)) => return Err(Halt::Ended(ending(cut, at))),
                }
            }
        }
        let at = course.counter();
        Err(Halt::Ended(Ending::Trapped(Trap {
            reason: Reason::Spent,
            at,
        })))
    }
}
