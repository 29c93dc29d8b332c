//! The step lines of an input are run, and a tenant's diagram is drawn.

ghost use Rattle.std.specs.Prelude.{◌≡◌, []};

use crate::followed::{Followed, follow};
use diagram::{draw, draw_page, find_tenant};
use handler::Handler;
use lines::ServeFault;
use log::{Log, error};
use model::NoMemory;
use shared_log::Store;
use std::alloc::Global;
use std::io::Read;
use std::time::Clock;
use words::DrawWords;

/// The diagram of the tenant that is named, or of the first one opened, after all step lines of the
/// input, over a store that acknowledged nothing yet. A line that is no step changes nothing. None where it can't be
/// drawn, which is told. Where the input has so many bytes, bars tell how far it is.
pub(crate) fn diagram_of<R: Eprint + Clock, L: Log, H: Handler + Clone, S: Store, I: Read + Drop>(
    rt: &R,
    told: &L,
    alloc: Global,
    handler: H,
    store: S,
    input: I,
    draw: &DrawWords<'_>,
    size: Option<u64>,
) -> Option<String>
    requires { S.log store ≡ [] }
{
    let Ok(own) = handler.clone() else {
        tell(told, ServeFault::NoMemory);
        return None;
    };
    let followed = match follow(rt, alloc, own, store, input, size) {
        Ok(followed) => followed,
        Err(fault) => {
            tell(told, fault);
            return None;
        }
    };
    let diagram = drawn(told, alloc, &handler, &followed, draw);
    followed.forget();
    diagram
}

/// The diagram of the tenant that is named, or of the first one opened.
fn drawn<L: Log, H: Handler, S: Store>(
    told: &L,
    alloc: Global,
    handler: &H,
    followed: &Followed<H, S>,
    asked: &DrawWords<'_>,
) -> Option<String> {
    let history = followed.book.history();
    let tenant = find_tenant(history, asked.tenant);
    if let (None, Some(name)) = (tenant, asked.tenant) {
        tell_closed(told, name);
        return None;
    }
    let drawn = if asked.html {
        let lines = followed.lines.as_slice();
        draw_page(alloc, handler, history, lines, tenant, asked.window)
    } else {
        draw(alloc, handler, history, tenant, asked.window)
    };
    match drawn {
        Ok(diagram) => Some(diagram),
        Err(NoMemory) => {
            tell(told, ServeFault::NoMemory);
            None
        }
    }
}

/// Says that the tenant that is named is not open.
fn tell_closed<L: Log>(told: &L, name: &str) {
    error!(told; "the tenant {name:?} is not open");
}

/// Says why nothing is drawn.
fn tell<L: Log>(told: &L, fault: ServeFault) {
    match fault {
        ServeFault::NoMemory => {
            error!(told; "there is no memory for the diagram: nothing is drawn");
        }
        _ => {
            error!(told; "the input can't be read: nothing is drawn");
        }
    }
}
