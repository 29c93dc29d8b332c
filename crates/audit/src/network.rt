//! Units at work, and the packets between them.

ghost use Rattle.std.specs.Prelude.{◌≡◌, ◌<◌, ◌∷◌, [], ◌++◌, IfOk, OnOk, MatchOption, length, nat_lt, slice_get};
ghost use Rattle.std.specs.Prelude.{slice_set, Some};
ghost use Rattle.model.specs.FailureFree.{is_between as is_between_of, next_text, without_next, new_worker, works_on};
ghost use Rattle.model.specs.FailureFree.{Worker as WorkerOf};
ghost use Rattle.audit.specs.Working.{AreInOrder, after_turn, packets_from, IsNowhere, IsFirst};

use handler::{AskRef, Handler, Turn};
use model::{Flaw, NoMemory, Seat, Source, Text, Unit};
use std::marker::Model;

/// A message that a unit received, and from where.
pub type Receipt = (Source, Text);

/// The network after a move, or the flaw of the move.
pub type Made<H> = Result<Network<<H as Handler>::State>, Flaw>;

/// A unit at work: its seat and state, what it received, and what it put out.
#[derive(Drop)]
pub struct Worker<S> {
    seat: Seat,
    state: S,
    received: Vec<Receipt>,
    outputs: Vec<Text>,
}

impl<S> Model for Worker<S> {
    ghost use Rattle.model.specs.FailureFree.{Worker as WorkerOf};

    ghost Value = { WorkerOf S };

    ghost view = { λ w. record {
      seat = w.seat;
      state = w.state;
      received = w.received.items;
      outputs = w.outputs.items;
    } };
}

/// A text on its way from one unit to another.
#[derive(Drop)]
pub struct Packet {
    source: Unit,
    target: Unit,
    text: Text,
}

impl Model for Packet {
    ghost use Rattle.model.specs.FailureFree.{Packet as PacketOf};

    ghost Value = { PacketOf };

    ghost view = { λ p. record { source = p.source; target = p.target; text = p.text } };
}

/// All units, and what is on its way between them, in the order of sending.
#[derive(Drop)]
pub struct Network<S> {
    pub workers: Vec<Worker<S>>,
    pub packets: Vec<Packet>,
}

impl<S> Model for Network<S> {
    ghost use Rattle.model.specs.FailureFree.{Network as NetworkOf};

    ghost Value = { NetworkOf S };

    ghost view = { λ n. record { workers = n.workers.items; packets = n.packets.items } };
}

impl Packet {
    fn is_between(&self, source: Unit, target: Unit) -> bool
        ensures { result ≡ is_between_of source target self.now }
    {
        self.source.number() == source.number() && self.target.number() == target.number()
    }
}

/// The place of the first packet from one unit to the other.
fn place_of_next(packets: &[Packet], source: Unit, target: Unit) -> Option<usize>
    ensures { MatchOption result (IsNowhere source target packets.now) (IsFirst source target packets.now) }
{
    for i in 0..packets.len() {
        let packet = &packets[i];
        if packet.is_between(source, target) {
            return Some(i);
        }
    }
    None
}

/// Takes the text of the first packet from one unit to the other off the queue.
pub fn take_next(packets: &mut Vec<Packet>, source: Unit, target: Unit) -> Option<Text>
    ensures text { result ≡ next_text source target packets.old.items }
    ensures rest { packets.new.items ≡ without_next source target packets.old.items }
{
    match place_of_next(packets.as_slice(), source, target) {
        Some(i) => Some(packets.remove(i).text),
        None => None,
    }
}

/// Sends one text.
fn send(packets: &mut Vec<Packet>, source: Unit, sent: &(Unit, Text)) -> Result<(), NoMemory>
    ensures { OnOk result (packets.new.items ≡ packets.old.items
        ++ record { source = source; target = sent.now.0; text = sent.now.1 } ∷ []) }
{
    let target = sent.0;
    let text = sent.1.copy()?;
    packets.push(Packet {
        source,
        target,
        text,
    })?;
    Ok(())
}

/// Whether the unit is one of the first `units`.
pub fn is_within(unit: Unit, units: usize) -> bool
    ensures { result ≡ nat_lt unit units }
{
    usize::from(unit.number()) < units
}

/// Sends what a unit sends to the units that are there.
fn send_all(
    packets: &mut Vec<Packet>,
    source: Unit,
    units: usize,
    sends: &[(Unit, Text)],
) -> Result<(), NoMemory>
    ensures { OnOk result (packets.new.items ≡ packets.old.items ++ packets_from source units sends.now) }
{
    for sent in sends {
        if is_within(sent.0, units) {
            send(packets, source, sent)?;
        }
    }
    Ok(())
}

/// Adds a unit that has received nothing yet.
pub fn add_worker<H: Handler>(
    handler: &H,
    workers: &mut Vec<Worker<H::State>>,
    seat: Seat,
) -> Result<(), NoMemory>
    ensures { OnOk result (workers.new.items ≡ workers.old.items ++ new_worker H.meaning seat ∷ []) }
{
    let alloc = *workers.allocator();
    let own = seat;
    workers.push(Worker {
        seat: own,
        state: handler.begin(alloc, seat)?,
        received: Vec::new(alloc),
        outputs: Vec::new(alloc),
    })?;
    Ok(())
}

impl<S> Worker<S> {
    /// The unit's number.
    pub fn unit(&self) -> Unit
        ensures { result ≡ self.now.seat.unit }
    {
        self.seat.unit
    }

    /// What the unit put out.
    pub fn outputs(&self) -> &[Text]
        ensures { result.now ≡ self.now.outputs }
    {
        self.outputs.as_slice()
    }
}

/// What a unit does upon a receipt. What it passes on of the text shares the text's place.
fn turn_at<H: Handler>(
    handler: &H,
    workers: &Vec<Worker<H::State>>,
    i: usize,
    receipt: &Receipt,
) -> Result<Turn<H::State>, NoMemory>
    requires { i < length workers.now.items }
    ensures { IfOk result (λ turn. (a : WorkerOf H.State) → slice_get workers.now.items i ≡ Some a
        → turn ≡ H.meaning.handle a.seat a.state receipt.now.0 receipt.now.1) }
{
    let worker = &workers[i];
    let alloc = *workers.allocator();
    let ask = AskRef {
        seat: worker.seat,
        state: &worker.state,
        source: receipt.0,
        text: &receipt.1,
    };
    ask.work(alloc, handler)
}

/// Keeps a receipt and what its turn puts out.
fn keep(
    received: &mut Vec<Receipt>,
    outputs: &mut Vec<Text>,
    receipt: Receipt,
    put_out: Vec<Text>,
) -> Result<(), NoMemory>
    ensures received { OnOk result (received.new.items ≡ received.old.items ++ receipt ∷ []) }
    ensures outputs { OnOk result (outputs.new.items ≡ outputs.old.items ++ put_out.items) }
{
    let mut put_out = put_out;
    received.push(receipt)?;
    outputs.append(&mut put_out)?;
    Ok(())
}

/// The unit has taken a receipt, and done this upon it. What is left is what it sends.
fn take_turn<S: Drop>(
    workers: &mut Vec<Worker<S>>,
    i: usize,
    receipt: Receipt,
    turn: Turn<S>,
) -> Result<Vec<(Unit, Text)>, NoMemory>
    requires { i < length workers.old.items }
    ensures worker { OnOk result ((a : WorkerOf S) → slice_get workers.old.items i ≡ Some a
        → workers.new.items ≡ slice_set workers.old.items i (after_turn a receipt.0 receipt.1 turn)) }
    ensures sends { IfOk result (λ sends. sends.items ≡ turn.sends) }
{
    let worker = &mut workers[i];
    let put_out = turn.outputs;
    keep(&mut worker.received, &mut worker.outputs, receipt, put_out)?;
    worker.state = turn.state;
    Ok(turn.sends)
}

/// A unit that is there works on a receipt. The only error is want of memory.
pub fn work<H: Handler>(
    handler: &H,
    net: Network<H::State>,
    unit: Unit,
    receipt: Receipt,
) -> Result<Network<H::State>, NoMemory>
    requires order { AreInOrder net.workers }
    requires within { unit < length net.workers }
    ensures { IfOk result (λ next. (a : WorkerOf H.State) → slice_get net.workers unit ≡ Some a
        → next ≡ works_on H.meaning net a receipt.0 receipt.1) }
{
    let Network { workers, packets } = net;
    let mut workers = workers;
    let mut packets = packets;
    let units = workers.len();
    let at = usize::from(unit.number());
    let turn = turn_at(handler, &workers, at, &receipt)?;
    let sends = take_turn(&mut workers, at, receipt, turn)?;
    send_all(&mut packets, unit, units, sends.as_slice())?;
    Ok(Network { workers, packets })
}
