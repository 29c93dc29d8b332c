ghost use Rattle.std.specs.Prelude.{◌≡◌, ◌≤◌, IfOk, length};

use model::{Mark, NoMemory, Text, Unit};
use output_commit::{Hold, Outlet, StableView};
use std::alloc::Global;
use std::test::Fail;

const MARK: Mark = Mark {
    incarnation: 0,
    index: 1,
};

/// The hold of unit 0 with one output, of its first interval.
fn one_held(alloc: Global) -> Result<Hold, NoMemory>
    ensures { IfOk result (λ h. h.unit ≡ 0) }
{
    let mut hold = Hold::new(alloc, Unit::new(0));
    let text = Text::of(alloc, "x")?;
    hold.add(MARK, vec![in alloc; text]?)?;
    Ok(hold)
}

/// Whether the first output of unit 0's hold is firm at this frontier.
fn is_firm(hold: &Hold, frontier: u64) -> bool
    requires { hold.now.unit ≡ 0 }
{
    hold.front_is_firm(&StableView {
        frontiers: &[frontier],
    })
}

/// Lets the first output of unit 0 out, if it is firm at this frontier.
fn release(hold: &mut Hold, outlet: &mut Outlet, frontier: u64) -> Result<(), NoMemory>
    requires unit { hold.old.unit ≡ 0 }
    requires outlet { 1 ≤ length outlet.old }
{
    outlet.reserve(Unit::new(0), 1)?;
    match hold.take_front(&StableView {
        frontiers: &[frontier],
    }) {
        Some(ticket) => {
            if let Err(back) = outlet.emit(ticket) {
                hold.put_back(back);
            }
        }
        None => {}
    }
    Ok(())
}

/// How many texts unit 0 released, if the outlet has it.
fn released(outlet: &Outlet) -> Option<usize> {
    if outlet.len() == 0 {
        return None;
    }
    Some(outlet.released(Unit::new(0)).len())
}

fn widen(outlet: &mut Outlet) -> Result<(), NoMemory> {
    outlet.widen(2)
}

#[test]
fn releases_what_is_firm(rt: HostRuntime) -> Result<(), Fail> {
    let mut hold = one_held(rt.alloc())?;
    let mut outlet = Outlet::new(rt.alloc(), 1)?;
    assert!(rt; !is_firm(&hold, 1));
    release(&mut hold, &mut outlet, 2)?;
    assert!(rt; hold.len() == 0 && released(&outlet) == Some(1));
    widen(&mut outlet)?;
    assert!(rt; outlet.len() == 2 && released(&outlet) == Some(1));
    Ok(())
}

/// Takes a ticket of unit 0 and puts it back, and tells whether the ticket was unit 0's.
fn take_and_put_back(hold: &mut Hold, frontier: u64) -> bool
    requires { hold.old.unit ≡ 0 }
{
    match hold.take_front(&StableView {
        frontiers: &[frontier],
    }) {
        Some(ticket) => {
            let is_own = ticket.unit() == Unit::new(0);
            hold.put_back(ticket);
            is_own
        }
        None => false,
    }
}

fn cut(hold: &mut Hold, index: u32) {
    hold.cut(index);
}

#[test]
fn takes_a_ticket_back(rt: HostRuntime) -> Result<(), Fail> {
    let mut hold = one_held(rt.alloc())?;
    assert!(rt; take_and_put_back(&mut hold, 2));
    assert_eq!(rt; hold.len(), 1);
    cut(&mut hold, 1);
    assert_eq!(rt; hold.len(), 0);
    Ok(())
}
