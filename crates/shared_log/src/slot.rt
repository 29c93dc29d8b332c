//! What a place has.

ghost use Rattle.std.specs.Prelude.{◌≡◌, IfOk, IsSome, Some, None, true, false};
ghost use Rattle.std.specs.Arc.{arc_value};
ghost use Rattle.shared_log.specs.Slots.{slot_record, record_with};

use model::{Letter, Mark, Marks, NoMemory, Record, Source, TenantName, Text, Unit};
use std::alloc::Global;
use std::marker::Model;
use std::sync::Arc;

/// Whom the received text came from, and who received it.
#[derive(Clone, Copy)]
struct Route {
    source: Source,
    unit: Unit,
}

/// What else a record has, but for its letter. Records of one tenant can share its name.
#[derive(Drop)]
struct Body {
    mark: Mark,
    number: u64,
    tenant: Arc<TenantName>,
    text: Text,
    vector: Marks,
}

impl Body {
    #[inline(always)]
    fn record(
        &self,
        alloc: Global,
        route: Route,
        letter: Option<Letter>,
    ) -> Result<Record, NoMemory>
        ensures { IfOk result (λ r. r ≡ record_with route letter self.now) }
    {
        let text = self.text.copy()?;
        let vector = self.vector.copy(alloc)?;
        Ok(Record {
            tenant: self.tenant.copy(),
            unit: route.unit,
            mark: self.mark,
            source: route.source,
            letter,
            number: self.number,
            text,
            vector,
        })
    }
}

/// What a slot has. The small parts stand beside the tag, where they take no bytes of their own.
#[derive(Drop)]
enum Occupancy {
    Vacant,
    // A record that received no letter.
    Letterless(Route, Body),
    Lettered(Route, Letter, Body),
}

impl Occupancy {
    #[inline(always)]
    fn of(route: Route, letter: Option<Letter>, body: Body) -> Occupancy
        ensures { slot_record result ≡ Some (record_with route letter body) }
    {
        match letter {
            None => Occupancy::Letterless(route, body),
            Some(letter) => Occupancy::Lettered(route, letter, body),
        }
    }
}

/// A record, or none. It takes fewer bytes than a `Record`.
#[derive(Drop)]
pub(crate) struct Slot {
    occupancy: Occupancy,
}

impl Model for Slot {
    ghost use Rattle.std.specs.Prelude.{Option};
    ghost use Rattle.model.specs.declared.records.Record.{Record};
    ghost use Rattle.shared_log.specs.Slots.{slot_record};

    ghost Value = { Option Record };

    ghost view = { λ s. slot_record s.occupancy };
}

impl Slot {
    pub(crate) fn empty() -> Slot
        ensures { result ≡ None }
    {
        Slot {
            occupancy: Occupancy::Vacant,
        }
    }

    /// The record, with this place for its tenant's name.
    #[inline(always)]
    pub(crate) fn of(logged: Record, name: Arc<TenantName>) -> Slot
        requires { arc_value name ≡ logged.tenant }
        ensures { result ≡ Some logged }
    {
        let letter = logged.letter;
        let route = Route {
            source: logged.source,
            unit: logged.unit,
        };
        let body = Body {
            mark: logged.mark,
            number: logged.number,
            tenant: name,
            text: logged.text,
            vector: logged.vector,
        };
        Slot {
            occupancy: Occupancy::of(route, letter, body),
        }
    }

    pub(crate) fn is_empty(&self) -> bool
        ensures empty { result ≡ true → self.now ≡ None }
        ensures full { result ≡ false → IsSome self.now }
    {
        match &self.occupancy {
            Occupancy::Vacant => true,
            Occupancy::Letterless(..) | Occupancy::Lettered(..) => false,
        }
    }

    /// An equal record. There must be one.
    pub(crate) fn copy(&self, alloc: Global) -> Result<Record, NoMemory>
        requires { IsSome self.now }
        ensures { IfOk result (λ r. self.now ≡ Some r) }
    {
        match &self.occupancy {
            Occupancy::Vacant => unreachable!(),
            Occupancy::Letterless(route, body) => body.record(alloc, *route, None),
            Occupancy::Lettered(route, letter, body) => body.record(alloc, *route, Some(*letter)),
        }
    }
}
