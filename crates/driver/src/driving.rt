//! Driving.

ghost use Rattle.std.specs.Prelude.{◌≡◌, ◌≢◌, ◌<◌, ◌≤◌, IfErr, IfOk, OnErr, OnOk, length, vec_capacity};
ghost use Rattle.model.specs.Failures.{HasRisen};
ghost use Rattle.model.specs.declared.replies.Who.TheVariants.{Caller};
ghost use Rattle.model.specs.declared.replies.Who.{Who as WhoOf};
ghost use Rattle.book.specs.Entries.{IsEntered};
ghost use Rattle.book.specs.Standing.{Carries, EntersHonestly, IsHostOf};
ghost use Rattle.lines.specs.Doing.{DoesBy, TakesSteps};
ghost use Rattle.lines.specs.Serving.{HostDoes};
ghost use Rattle.driver.specs.Driving.{AreRounds, BookDrives, Broken, Drove, DroveAllBy, DroveSomeBy, HostDrives};
ghost use Rattle.driver.specs.Driving.{IsRound, IsStepRound, Round, Took, Wrote, lines_told, outputs_of};
ghost use Rattle.driver.specs.Driving.{round_text};
ghost use Rattle.flows.specs.Chores.{chore_step};

use crate::outputs::put_outputs;
use book::{Book, Host};
use flows::{
    Chore, Chores, Done, Driver, Fate, Flow, MAX_DELIVERIES, Subject, Waiting, hear, refusal_of,
    subject_of,
};
use handler::Handler;
use json::Scratch;
use lines::{Counted, LineRead, ServeFault, fault_reply, flush_unless, put_reply, read_line};
use model::{AddressedStep, Letter, MAX_LINE_BYTES, Refusal, Reply, TenantName, Text, Unit};
use quick_forms::read_addressed;
use shared_log::Store;
use std::alloc::Global;
use std::io::{BufRead, Write};

/// Answers each line of the input, in order, as `serve` does, and carries on behind each for its tenant: letters are
/// delivered, and what is firm is released, a line for each text. Tells how many lines there were.
///
/// The driver gives its steps as the caller, so that the book's history is legal as any other. It depends on the lines
/// alone, so that the same lines give the same bytes.
///
/// `Read` comes only where the reader failed, `Write` only where the writer failed, and `NoMemory` where there was
/// none for the buffer, for a text that is written, for what the driver remembers, or for a step that it gave. After
/// each the book holds the steps so far, and what is written is a beginning of what they tell.
pub fn drive<R: BufRead, W: Write, H: Handler, S: Store>(
    alloc: Global,
    reader: &mut Counted<R>,
    writer: &mut Counted<W>,
    book: &mut Book<H, S>,
    driver: &mut Driver,
) -> Result<u64, ServeFault>
    ensures all { IfOk result (λ count. DroveAllBy BookDrives (R.remaining reader.old.inner)
        (W.contents writer.old.inner) (W.contents writer.new.inner) book.old book.new count) }
    ensures some { OnErr result (DroveSomeBy BookDrives
        (R.remaining reader.old.inner) (R.remaining reader.new.inner)
        (W.contents writer.old.inner) (W.contents writer.new.inner) book.old book.new) }
    ensures read { result ≡ Err ServeFault.Read → HasRisen reader.old.failed reader.new.failed }
    ensures write { result ≡ Err ServeFault.Write → HasRisen writer.old.failed writer.new.failed }
    ensures read_same { result ≢ Err ServeFault.Read → reader.new.failed ≡ reader.old.failed }
    ensures write_same { result ≢ Err ServeFault.Write → writer.new.failed ≡ writer.old.failed }
{
    drive_by(
        alloc,
        reader,
        writer,
        book,
        &|book: &mut Book<H, S>, step: AddressedStep| -> Reply
            ensures { IsEntered book.entry.now Caller step result book.exit.now }
        { book.step_addressed(step) },
        &|book: &Book<H, S>, tenant: &TenantName, letter: Letter| -> Option<Unit> {
            book.host().receiver(tenant, letter)
        },
        driver,
    )
}

/// The same by a host: whichever book it stood for before, what is written is what that book tells, and the host then
/// stands for the book after it.
pub fn drive_host<R: BufRead, W: Write, H: Handler, S: Store>(
    alloc: Global,
    reader: &mut Counted<R>,
    writer: &mut Counted<W>,
    host: &mut Host<H, S>,
    driver: &mut Driver,
) -> Result<u64, ServeFault>
    ensures all { IfOk result (λ count. DroveAllBy (HostDrives H.meaning) (R.remaining reader.old.inner)
        (W.contents writer.old.inner) (W.contents writer.new.inner) host.old host.new count) }
    ensures some { OnErr result (DroveSomeBy (HostDrives H.meaning)
        (R.remaining reader.old.inner) (R.remaining reader.new.inner)
        (W.contents writer.old.inner) (W.contents writer.new.inner) host.old host.new) }
    ensures read { result ≡ Err ServeFault.Read → HasRisen reader.old.failed reader.new.failed }
    ensures write { result ≡ Err ServeFault.Write → HasRisen writer.old.failed writer.new.failed }
    ensures read_same { result ≢ Err ServeFault.Read → reader.new.failed ≡ reader.old.failed }
    ensures write_same { result ≢ Err ServeFault.Write → writer.new.failed ≡ writer.old.failed }
{
    drive_by(
        alloc,
        reader,
        writer,
        host,
        &|host: &mut Host<H, S>, step: AddressedStep| -> Reply
            ensures { (who : WhoOf) → Carries (IsHostOf H.meaning)
                (EntersHonestly H.meaning who step result) host.entry.now host.exit.now }
        { host.step(step) },
        &|host: &Host<H, S>, tenant: &TenantName, letter: Letter| -> Option<Unit> {
            host.receiver(tenant, letter)
        },
        driver,
    )
}

/// Does a step by a host, writes its reply, and carries on for its tenant: the round of a line that is this step. The
/// text is a buffer that can be kept for the next; what it held is gone.
///
/// `Write` comes only where the writer failed, and `NoMemory` where there was none for a text that is written, for what
/// the driver remembers, or for a step that it gave. The step is done then too, and what is written is a beginning of
/// the round; the driver isn't to be used again.
pub fn drive_host_step<W: Write, H: Handler, S: Store>(
    alloc: Global,
    writer: &mut Counted<W>,
    host: &mut Host<H, S>,
    driver: &mut Driver,
    text: &mut Vec<u8>,
    read: AddressedStep,
) -> Result<(), ServeFault>
    ensures { (round : Round) × IsStepRound (HostDoes H.meaning) read host.old round host.new
        × Wrote result (round_text round) (W.contents writer.old.inner) (W.contents writer.new.inner)
        writer.old.failed writer.new.failed }
{
    drive_step(
        alloc,
        writer,
        host,
        &|host: &mut Host<H, S>, own: AddressedStep| -> Reply
            ensures { (who : WhoOf) → Carries (IsHostOf H.meaning)
                (EntersHonestly H.meaning who own result) host.entry.now host.exit.now }
        { host.step(own) },
        &|host: &Host<H, S>, tenant: &TenantName, letter: Letter| -> Option<Unit> {
            host.receiver(tenant, letter)
        },
        driver,
        text,
        read,
    )
}

// The same by whatever a function does steps on.
fn drive_by<
    R: BufRead,
    W: Write,
    B,
    F: Fn(&mut B, AddressedStep) -> Reply,
    G: Fn(&B, &TenantName, Letter) -> Option<Unit>,
>(
    alloc: Global,
    reader: &mut Counted<R>,
    writer: &mut Counted<W>,
    book: &mut B,
    step: &F,
    receiver: &G,
    driver: &mut Driver,
) -> Result<u64, ServeFault>
    requires takes { TakesSteps F.Fn step.now }
    requires finds { G.IsAlwaysCallable receiver.now }
    ensures all { IfOk result (λ count. DroveAllBy (AreRounds (DoesBy F.Fn step.now)) (R.remaining reader.old.inner)
        (W.contents writer.old.inner) (W.contents writer.new.inner) book.old book.new count) }
    ensures some { OnErr result (DroveSomeBy (AreRounds (DoesBy F.Fn step.now))
        (R.remaining reader.old.inner) (R.remaining reader.new.inner)
        (W.contents writer.old.inner) (W.contents writer.new.inner) book.old book.new) }
    ensures read { result ≡ Err ServeFault.Read → HasRisen reader.old.failed reader.new.failed }
    ensures write { result ≡ Err ServeFault.Write → HasRisen writer.old.failed writer.new.failed }
    ensures read_same { result ≢ Err ServeFault.Read → reader.new.failed ≡ reader.old.failed }
    ensures write_same { result ≢ Err ServeFault.Write → writer.new.failed ≡ writer.old.failed }
{
    let Ok(mut held) = Vec::with_capacity(alloc, MAX_LINE_BYTES) else {
        return Err(ServeFault::NoMemory);
    };
    // Each line takes a call at least, so that the count of lines fits.
    let _most = reader.calls_left();
    let mut scratch = Scratch::new(alloc);
    let mut text = Vec::new(alloc);
    let mut ahead = false;
    let mut count = 0;
    loop {
        if !drive_next(
            alloc,
            reader,
            writer,
            book,
            step,
            receiver,
            driver,
            &mut scratch,
            &mut held,
            &mut text,
            &mut ahead,
        )? {
            return Ok(count);
        }
        count += 1;
    }
}

// Reads a line, answers it and carries on, if one is left.
fn drive_next<
    R: BufRead,
    W: Write,
    B,
    F: Fn(&mut B, AddressedStep) -> Reply,
    G: Fn(&B, &TenantName, Letter) -> Option<Unit>,
>(
    alloc: Global,
    reader: &mut Counted<R>,
    writer: &mut Counted<W>,
    book: &mut B,
    step: &F,
    receiver: &G,
    driver: &mut Driver,
    scratch: &mut Scratch,
    held: &mut Vec<u8>,
    text: &mut Vec<u8>,
    ahead: &mut bool,
) -> Result<bool, ServeFault>
    requires room { MAX_LINE_BYTES ≤ vec_capacity held.old }
    requires takes { TakesSteps F.Fn step.now }
    requires finds { G.IsAlwaysCallable receiver.now }
    ensures room { MAX_LINE_BYTES ≤ vec_capacity held.new }
    ensures took { IfOk result (λ found. Took (DoesBy F.Fn step.now) found
        (R.remaining reader.old.inner) (R.remaining reader.new.inner)
        (W.contents writer.old.inner) (W.contents writer.new.inner) book.old book.new) }
    ensures err { OnErr result (Broken (DoesBy F.Fn step.now)
        (R.remaining reader.old.inner) (R.remaining reader.new.inner)
        (W.contents writer.old.inner) (W.contents writer.new.inner) book.old book.new) }
    ensures read { result ≡ Err ServeFault.Read → HasRisen reader.old.failed reader.new.failed }
    ensures write { result ≡ Err ServeFault.Write → HasRisen writer.old.failed writer.new.failed }
    ensures read_same { result ≢ Err ServeFault.Read → reader.new.failed ≡ reader.old.failed }
    ensures write_same { result ≢ Err ServeFault.Write → writer.new.failed ≡ writer.old.failed }
    ensures fewer { OnOk result (reader.new.left < reader.old.left) }
{
    match read_line(reader, writer, held, ahead)? {
        LineRead::End => {
            flush_unless(writer, false)?;
            Ok(false)
        }
        LineRead::Long => {
            put_reply(writer, text, &bad_line())?;
            Ok(true)
        }
        LineRead::Line => {
            let line = held.as_slice();
            drive_line(
                alloc, writer, book, step, receiver, driver, scratch, text, line,
            )?;
            Ok(true)
        }
    }
}

// The reply to a line that is no step.
fn bad_line() -> Reply
    ensures { result ≡ Reply.Refused Refusal.BadLine }
{
    Reply::Refused {
        refusal: Refusal::BadLine,
    }
}

// Answers a line, and carries on.
fn drive_line<
    W: Write,
    B,
    F: Fn(&mut B, AddressedStep) -> Reply,
    G: Fn(&B, &TenantName, Letter) -> Option<Unit>,
>(
    alloc: Global,
    writer: &mut Counted<W>,
    book: &mut B,
    step: &F,
    receiver: &G,
    driver: &mut Driver,
    scratch: &mut Scratch,
    text: &mut Vec<u8>,
    line: &[u8],
) -> Result<(), ServeFault>
    requires short { length line.now ≤ MAX_LINE_BYTES }
    requires takes { TakesSteps F.Fn step.now }
    requires finds { G.IsAlwaysCallable receiver.now }
    ensures { (round : Round) × IsRound (DoesBy F.Fn step.now) line.now book.old round book.new
        × Wrote result (round_text round) (W.contents writer.old.inner) (W.contents writer.new.inner)
        writer.old.failed writer.new.failed }
{
    match read_addressed(alloc, scratch, line) {
        Ok(read) => drive_step(alloc, writer, book, step, receiver, driver, text, read),
        Err(fault) => put_reply(writer, text, &fault_reply(fault)),
    }
}

// Does the step of a line, answers it, and carries on for its tenant.
fn drive_step<
    W: Write,
    B,
    F: Fn(&mut B, AddressedStep) -> Reply,
    G: Fn(&B, &TenantName, Letter) -> Option<Unit>,
>(
    alloc: Global,
    writer: &mut Counted<W>,
    book: &mut B,
    step: &F,
    receiver: &G,
    driver: &mut Driver,
    text: &mut Vec<u8>,
    read: AddressedStep,
) -> Result<(), ServeFault>
    requires takes { TakesSteps F.Fn step.now }
    requires finds { G.IsAlwaysCallable receiver.now }
    ensures { (round : Round) × IsStepRound (DoesBy F.Fn step.now) read book.old round book.new
        × Wrote result (round_text round) (W.contents writer.old.inner) (W.contents writer.new.inner)
        writer.old.failed writer.new.failed }
{
    let subject = subject_of(book, receiver, read.tenant(), read.own());
    let reply = do_step(book, step, read);
    put_reply(writer, text, &reply)?;
    take_in(driver, book, receiver, &subject, &reply)?;
    carry_on(writer, book, step, receiver, driver, text, &subject, &reply)
}

// Takes in what the step of a line was answered.
fn take_in<B, G: Fn(&B, &TenantName, Letter) -> Option<Unit>>(
    driver: &mut Driver,
    book: &B,
    receiver: &G,
    subject: &Subject,
    reply: &Reply,
) -> Result<(), ServeFault>
    requires { G.IsAlwaysCallable receiver.now }
    ensures { IfErr result (λ e. e ≡ ServeFault.NoMemory) }
{
    match driver.hear(book, receiver, subject, reply) {
        Ok(()) => Ok(()),
        Err(_) => Err(ServeFault::NoMemory),
    }
}

// Does one step.
#[inline(always)]
fn do_step<B, F: Fn(&mut B, AddressedStep) -> Reply>(
    book: &mut B,
    step: &F,
    read: AddressedStep,
) -> Reply
    requires { TakesSteps F.Fn step.now }
    ensures { DoesBy F.Fn step.now book.old read result book.new }
{
    step(book, read)
}

// Carries on for a tenant behind a line with this reply: after a restart the other units are given a notice, the
// letters are delivered, what the units took is logged, and what is firm is released.
fn carry_on<
    W: Write,
    B,
    F: Fn(&mut B, AddressedStep) -> Reply,
    G: Fn(&B, &TenantName, Letter) -> Option<Unit>,
>(
    writer: &mut Counted<W>,
    book: &mut B,
    step: &F,
    receiver: &G,
    driver: &mut Driver,
    text: &mut Vec<u8>,
    subject: &Subject,
    reply: &Reply,
) -> Result<(), ServeFault>
    requires takes { TakesSteps F.Fn step.now }
    requires finds { G.IsAlwaysCallable receiver.now }
    ensures { Drove (DoesBy F.Fn step.now) subject.now.tenant result book.old book.new
        (W.contents writer.old.inner) (W.contents writer.new.inner) writer.old.failed writer.new.failed }
{
    let tenant = &subject.tenant;
    let Some((flow, done)) = driver.flow_mut(tenant) else {
        return Ok(());
    };
    let notices = notices_upon(flow, subject, reply);
    do_chores(
        writer, book, step, receiver, text, flow, done, tenant, &notices,
    )?;
    deliver_letters(writer, book, step, receiver, text, flow, done, tenant)?;
    let settling = flow.settling();
    do_chores(
        writer, book, step, receiver, text, flow, done, tenant, &settling,
    )
}

// The notices that a line's step asks for: those of all other units, where one was restarted.
fn notices_upon(flow: &Flow, subject: &Subject, reply: &Reply) -> Chores {
    match (reply, subject.unit) {
        (Reply::Restarted { .. }, Some(unit)) => flow.notices(unit),
        _ => Chores::new(),
    }
}

// Delivers the letters from the front, until each was taken or waits.
fn deliver_letters<
    W: Write,
    B,
    F: Fn(&mut B, AddressedStep) -> Reply,
    G: Fn(&B, &TenantName, Letter) -> Option<Unit>,
>(
    writer: &mut Counted<W>,
    book: &mut B,
    step: &F,
    receiver: &G,
    text: &mut Vec<u8>,
    flow: &mut Flow,
    done: &mut Done,
    tenant: &TenantName,
) -> Result<(), ServeFault>
    requires takes { TakesSteps F.Fn step.now }
    requires finds { G.IsAlwaysCallable receiver.now }
    ensures { Drove (DoesBy F.Fn step.now) tenant.now result book.old book.new
        (W.contents writer.old.inner) (W.contents writer.new.inner) writer.old.failed writer.new.failed }
{
    let mut left = MAX_DELIVERIES;
    for place in 0..flow.most_letters() {
        if left == 0 {
            break;
        }
        let Some(waiting) = flow.letter_at(place) else {
            break;
        };
        let fate = try_letter(
            writer, book, step, receiver, text, flow, done, tenant, &waiting,
        )?;
        if fate == Fate::Taken {
            left -= 1;
        }
        decide(flow, place, &waiting, fate)?;
    }
    flow.sweep();
    Ok(())
}

// What becomes of a letter.
fn decide(flow: &mut Flow, place: usize, waiting: &Waiting, fate: Fate) -> Result<(), ServeFault>
    ensures { IfErr result (λ e. e ≡ ServeFault.NoMemory) }
{
    match flow.decide(place, waiting, fate) {
        Ok(()) => Ok(()),
        Err(_) => Err(ServeFault::NoMemory),
    }
}

// Tries a letter, and once more after what may help. One whose unit is down isn't tried.
fn try_letter<
    W: Write,
    B,
    F: Fn(&mut B, AddressedStep) -> Reply,
    G: Fn(&B, &TenantName, Letter) -> Option<Unit>,
>(
    writer: &mut Counted<W>,
    book: &mut B,
    step: &F,
    receiver: &G,
    text: &mut Vec<u8>,
    flow: &mut Flow,
    done: &mut Done,
    tenant: &TenantName,
    waiting: &Waiting,
) -> Result<Fate, ServeFault>
    requires takes { TakesSteps F.Fn step.now }
    requires finds { G.IsAlwaysCallable receiver.now }
    ensures { Drove (DoesBy F.Fn step.now) tenant.now result book.old book.new
        (W.contents writer.old.inner) (W.contents writer.new.inner) writer.old.failed writer.new.failed }
{
    let (letter, unit) = (waiting.letter, waiting.unit);
    if !flow.is_up(unit) {
        return Ok(Fate::Waits(Refusal::Down));
    }
    let chore = Chore::Deliver { letter, unit };
    let refusal = do_chore(
        writer, book, step, receiver, text, flow, done, tenant, &chore,
    )?;
    let remedy = flow.remedy(refusal, unit);
    if remedy.is_empty() {
        return Ok(Fate::of(refusal));
    }
    do_chores(
        writer, book, step, receiver, text, flow, done, tenant, &remedy,
    )?;
    let again = do_chore(
        writer, book, step, receiver, text, flow, done, tenant, &chore,
    )?;
    Ok(Fate::of(again))
}

// Does steps of the driver, in order.
fn do_chores<
    W: Write,
    B,
    F: Fn(&mut B, AddressedStep) -> Reply,
    G: Fn(&B, &TenantName, Letter) -> Option<Unit>,
>(
    writer: &mut Counted<W>,
    book: &mut B,
    step: &F,
    receiver: &G,
    text: &mut Vec<u8>,
    flow: &mut Flow,
    done: &mut Done,
    tenant: &TenantName,
    chores: &Chores,
) -> Result<(), ServeFault>
    requires takes { TakesSteps F.Fn step.now }
    requires finds { G.IsAlwaysCallable receiver.now }
    ensures { Drove (DoesBy F.Fn step.now) tenant.now result book.old book.new
        (W.contents writer.old.inner) (W.contents writer.new.inner) writer.old.failed writer.new.failed }
{
    for chore in chores.as_slice() {
        do_chore(
            writer, book, step, receiver, text, flow, done, tenant, chore,
        )?;
    }
    Ok(())
}

// The step of the driver for this tenant.
fn step_of(tenant: &TenantName, chore: &Chore) -> AddressedStep
    ensures { result ≡ chore_step tenant.now chore.now }
{
    AddressedStep {
        tenant: tenant.copy(),
        own: chore.own_step(),
    }
}

// Does a step of the driver, and writes a line for each text that left by it. Tells why it was refused, if it was.
fn do_chore<
    W: Write,
    B,
    F: Fn(&mut B, AddressedStep) -> Reply,
    G: Fn(&B, &TenantName, Letter) -> Option<Unit>,
>(
    writer: &mut Counted<W>,
    book: &mut B,
    step: &F,
    receiver: &G,
    text: &mut Vec<u8>,
    flow: &mut Flow,
    done: &mut Done,
    tenant: &TenantName,
    chore: &Chore,
) -> Result<Option<Refusal>, ServeFault>
    requires takes { TakesSteps F.Fn step.now }
    requires finds { G.IsAlwaysCallable receiver.now }
    ensures { Drove (DoesBy F.Fn step.now) tenant.now result book.old book.new
        (W.contents writer.old.inner) (W.contents writer.new.inner) writer.old.failed writer.new.failed }
{
    let reply = do_step(book, step, step_of(tenant, chore));
    put_left(writer, text, tenant, chore, &reply)?;
    done.count(chore, outputs_in(&reply).len());
    hear_chore(flow, book, receiver, tenant, chore, &reply)
}

// The texts that a reply releases.
fn outputs_in(reply: &Reply) -> &[Text]
    ensures { result.now ≡ outputs_of reply.now }
{
    match reply {
        Reply::Released { outputs } => outputs.as_slice(),
        _ => &[],
    }
}

// Writes a line for each text that left by a step of the driver.
fn put_left<W: Write>(
    writer: &mut Counted<W>,
    text: &mut Vec<u8>,
    tenant: &TenantName,
    chore: &Chore,
    reply: &Reply,
) -> Result<(), ServeFault>
    ensures { Wrote result (lines_told (chore_step tenant.now chore.now, reply.now))
        (W.contents writer.old.inner) (W.contents writer.new.inner) writer.old.failed writer.new.failed }
{
    match chore {
        Chore::Release { unit } => put_outputs(writer, text, tenant, *unit, outputs_in(reply)),
        _ => Ok(()),
    }
}

// Takes in what a step of the driver was answered, and tells why it was refused, if it was. Where there was no memory
// for it the driver can't go on as it would have.
fn hear_chore<B, G: Fn(&B, &TenantName, Letter) -> Option<Unit>>(
    flow: &mut Flow,
    book: &B,
    receiver: &G,
    tenant: &TenantName,
    chore: &Chore,
    reply: &Reply,
) -> Result<Option<Refusal>, ServeFault>
    requires { G.IsAlwaysCallable receiver.now }
    ensures { IfErr result (λ e. e ≡ ServeFault.NoMemory) }
{
    let refusal = refusal_of(reply);
    if refusal == Some(Refusal::Memory) {
        return Err(ServeFault::NoMemory);
    }
    match hear(flow, book, receiver, tenant, chore.unit(), reply) {
        Ok(()) => Ok(refusal),
        Err(_) => Err(ServeFault::NoMemory),
    }
}
