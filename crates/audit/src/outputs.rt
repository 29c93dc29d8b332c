//! What units put out, beside what was released of them.

ghost use Rattle.std.specs.Prelude.{◌≡◌, ◌↔◌, IsTrue, length, MatchOption};
ghost use Rattle.model.specs.FailureFree.{BeginWith};
ghost use Rattle.audit.specs.Working.{AreInOrder};
ghost use Rattle.audit.specs.Released.{DiffersFirst};
ghost use mathlib.Core.List.{IsPrefix};

use crate::network::Worker;
use model::{Text, Texts, Unit};

/// Whether the outputs begin with the list.
fn begin_with(outputs: &[Text], list: &[Text]) -> bool
    ensures { IsTrue result ↔ IsPrefix list.now outputs.now }
{
    outputs.starts_with(list)
}

/// The first unit whose outputs do not begin with its list.
pub fn first_differing<S>(workers: &[Worker<S>], released: &[Texts]) -> Option<Unit>
    requires order { AreInOrder workers.now }
    requires lists { length released.now ≡ length workers.now }
    ensures { MatchOption result (BeginWith workers.now released.now) (DiffersFirst workers.now released.now) }
{
    for i in 0..workers.len() {
        let worker = &workers[i];
        if !begin_with(worker.outputs(), released[i].as_slice()) {
            return Some(worker.unit());
        }
    }
    None
}
