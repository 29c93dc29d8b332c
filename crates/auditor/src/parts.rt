//! The entries of a history, parted by tenants.

ghost use Rattle.std.specs.Prelude.{◌≡◌, ◌++◌, [], ◌∷◌, ℕ, List, IfOk, OnOk, None, bytes_eq};
ghost use Rattle.indexmap.specs.IndexMap.{get};
ghost use Rattle.book.specs.History.{entries_of};
ghost use Rattle.auditor.specs.Parting.{AreOtherPartsSame, AreParts, part_at, part_in};

use book::Book;
use handler::Handler;
use indexmap::IndexMap;
use model::{Entry, NoMemory, TenantName};
use shared_log::Store;
use std::alloc::Global;
use std::marker::Model;
use std::mem;

/// The entries of one tenant, in order.
#[derive(Drop)]
struct Part {
    entries: Vec<Entry>,
}

impl Model for Part {
    ghost use Rattle.std.specs.Prelude.{List};
    ghost use Rattle.model.specs.declared.replies.Entry.{Entry as AnEntry};

    ghost Value = { List AnEntry };

    ghost view = { λ p. p.entries.items };
}

impl Part {
    fn new(alloc: Global) -> Part
        ensures { result ≡ [] }
    {
        Part {
            entries: Vec::new(alloc),
        }
    }

    fn as_slice(&self) -> &[Entry]
        ensures { result.now ≡ self.now }
    {
        self.entries.as_slice()
    }

    fn push(&mut self, entry: Entry) -> Result<(), NoMemory>
        ensures { OnOk result (self.new ≡ self.old ++ entry ∷ []) }
    {
        match self.entries.push(entry) {
            Ok(()) => Ok(()),
            Err(_) => Err(NoMemory),
        }
    }
}

/// Each tenant's entries by its name, in the order of their first ones.
type Map = IndexMap<TenantName, Part>;

/// The entries of a history, those of each tenant in a list of their own. Contracts see what each
/// tenant has.
#[derive(Drop)]
pub struct Parts {
    map: Map,
}

impl Model for Parts {
    ghost use Rattle.std.specs.Prelude.{List, ℕ};
    ghost use Rattle.model.specs.declared.replies.Entry.{Entry as AnEntry};

    ghost Value = { List (List ℕ × List AnEntry) };

    ghost view = { λ p. p.map.entries };
}

impl Parts {
    /// Leaves them as they are, where the process ends with them: to let go of the copied entries takes a while.
    pub fn forget(self) {
        mem::forget(self);
    }

    /// The tenant's own entries, in order: none where no step named it.
    pub fn of(&self, tenant: &TenantName) -> &[Entry]
        ensures { result.now ≡ part_at self.now tenant.now }
    {
        match self.map.get(tenant) {
            Some(own) => own.as_slice(),
            None => &[],
        }
    }
}

/// An equal entry.
fn copy_of(alloc: Global, entry: &Entry) -> Result<Entry, NoMemory>
    ensures { IfOk result (λ e. e ≡ entry.now) }
{
    Ok(Entry {
        who: entry.who,
        step: entry.step.copy()?,
        said: entry.said,
        reply: entry.reply.copy(alloc)?,
    })
}

/// Puts a tenant in that is not there, with no entries.
fn enter(alloc: Global, map: &mut Map, tenant: &TenantName) -> Result<(), NoMemory>
    requires { get bytes_eq map.old tenant.now ≡ None }
    ensures { OnOk result ((t : List ℕ) → part_in map.new t ≡ part_in map.old t) }
{
    let name = tenant.copy();
    match map.insert(name, Part::new(alloc)) {
        Ok(_) => Ok(()),
        Err(_) => Err(NoMemory),
    }
}

/// Adds an entry to those of a tenant.
fn append(alloc: Global, map: &mut Map, tenant: &TenantName, entry: Entry) -> Result<(), NoMemory>
    ensures own { OnOk result (part_in map.new tenant.now ≡ part_in map.old tenant.now ++ entry ∷ []) }
    ensures others { OnOk result (AreOtherPartsSame tenant.now (part_in map.old) (part_in map.new)) }
{
    if let Some(own) = map.get_mut(tenant) {
        return own.push(entry);
    }
    enter(alloc, map, tenant)?;
    match map.get_mut(tenant) {
        Some(own) => own.push(entry),
        None => Err(NoMemory),
    }
}

/// Adds an equal entry to those of its tenant.
fn add(alloc: Global, map: &mut Map, entry: &Entry) -> Result<(), NoMemory>
    ensures { OnOk result ((t : List ℕ) → part_in map.new t ≡ part_in map.old t ++ entries_of t (entry.now ∷ [])) }
{
    let copied = copy_of(alloc, entry)?;
    append(alloc, map, entry.step.tenant(), copied)
}

/// Parts a history: each entry once, in a constant time.
fn map_of(alloc: Global, history: &[Entry]) -> Result<Map, NoMemory>
    ensures { IfOk result (λ map. AreParts map.entries history.now) }
{
    let mut map = IndexMap::new(alloc);
    for entry in history {
        add(alloc, &mut map, entry)?;
    }
    Ok(map)
}

/// Parts the history of a book by tenants, in one pass, for audits of many of them by `audit_part`.
///
/// # Errors
///
/// `NoMemory` where the copies of the entries find none, or there are 2^63 - 1 copies of a text
/// already.
pub fn parts_of<H: Handler, S: Store>(alloc: Global, book: &Book<H, S>) -> Result<Parts, NoMemory>
    ensures { IfOk result (λ parts. AreParts parts book.now.history) }
{
    let map = map_of(alloc, book.history())?;
    Ok(Parts { map })
}
