//! Moves of a run without failures.

ghost use Rattle.std.specs.Prelude.{◌≡◌, IfOk, map, slice_get};
ghost use Rattle.model.specs.FailureFree.{takes_text, takes_letter, moved, run_from, new_worker, next_text};
ghost use Rattle.model.specs.FailureFree.{without_next as without_next_of};
ghost use Rattle.model.specs.declared.moves.Move.TheVariants.{Join};
ghost use Rattle.audit.specs.Working.{AreInOrder, Makes};

use crate::network::{Made, Network, Worker, add_worker, is_within, take_next, work};
use handler::Handler;
use model::{Flaw, Kind, MAX_UNITS, Move, NoMemory, Seat, Source, Text, Unit};
use std::alloc::Global;

/// A unit takes a text from outside, if it is there.
fn take_text<H: Handler>(handler: &H, net: Network<H::State>, unit: Unit, text: &Text) -> Made<H>
    requires { AreInOrder net.workers }
    ensures { Makes result (takes_text H.meaning net unit text.now (slice_get net.workers unit)) }
{
    if !is_within(unit, net.workers.len()) {
        return Err(Flaw::NoUnit(unit));
    }
    let Ok(own) = text.copy() else {
        return Err(Flaw::NoMemory);
    };
    work(handler, net, unit, (Source::Outside, own)).map_err(|_| Flaw::NoMemory)
}

/// The network without the next packet from one unit to the other, and that packet's text.
fn without_next<S>(net: Network<S>, source: Unit, target: Unit) -> (Network<S>, Option<Text>)
    ensures net { result.0 ≡ record net { packets = without_next_of source target net.packets } }
    ensures text { result.1 ≡ next_text source target net.packets }
{
    let mut net = net;
    let text = take_next(&mut net.packets, source, target);
    (net, text)
}

/// A unit takes the next letter of another, if both are there.
fn take_letter<H: Handler>(handler: &H, net: Network<H::State>, to: Unit, from: Unit) -> Made<H>
    requires { AreInOrder net.workers }
    ensures { Makes result (takes_letter H.meaning net to from (slice_get net.workers to)) }
{
    if !is_within(to, net.workers.len()) {
        return Err(Flaw::NoUnit(to));
    }
    if !is_within(from, net.workers.len()) {
        return Err(Flaw::NoUnit(from));
    }
    let (rest, text) = without_next(net, from, to);
    let Some(text) = text else {
        return Err(Flaw::NothingToReceive(to));
    };
    match work(handler, rest, to, (Source::Unit(from), text)) {
        Ok(next) => Ok(next),
        Err(_) => Err(Flaw::NoMemory),
    }
}

/// A unit of this kind joins, if there are not too many.
fn join<H: Handler>(handler: &H, net: Network<H::State>, kind: Kind) -> Made<H>
    ensures { Makes result (moved H.meaning net (Join kind)) }
{
    let mut net = net;
    let units = net.workers.len();
    if units >= MAX_UNITS {
        return Err(Flaw::NoUnit(Unit::new(MAX_UNITS as u8)));
    }
    let seat = Seat {
        unit: Unit::new(units as u8),
        kind,
        home: units as u8 + 1,
    };
    add_worker(handler, &mut net.workers, seat).map_err(|_| Flaw::NoMemory)?;
    Ok(net)
}

/// Makes one move, if it can be made.
fn make_move<H: Handler>(handler: &H, net: Network<H::State>, next: &Move) -> Made<H>
    requires { AreInOrder net.workers }
    ensures { Makes result (moved H.meaning net next.now) }
{
    match next {
        Move::Outside { unit, text } => take_text(handler, net, *unit, text),
        Move::Letter { to, from } => take_letter(handler, net, *to, *from),
        Move::Join { kind } => join(handler, net, *kind),
    }
}

/// Makes all moves in order.
pub fn make_all<H: Handler>(handler: &H, net: Network<H::State>, moves: &[Move]) -> Made<H>
    requires { AreInOrder net.workers }
    ensures { Makes result (run_from H.meaning net moves.now) }
{
    let mut net = net;
    for next in moves {
        net = make_move(handler, net, next)?;
    }
    Ok(net)
}

/// Units at these seats, before any move.
pub fn workers_at<H: Handler>(
    alloc: Global,
    handler: &H,
    seats: &[Seat],
) -> Result<Vec<Worker<H::State>>, NoMemory>
    ensures { IfOk result (λ workers. workers.items ≡ map (new_worker H.meaning) seats.now) }
{
    let mut workers = Vec::new(alloc);
    for seat in seats {
        add_worker(handler, &mut workers, *seat)?;
    }
    Ok(workers)
}
