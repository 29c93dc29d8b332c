//! Where each tenant's entries stand in a history, found in one walk.

use indexmap::IndexMap;
use model::{Entry, NoMemory, Quota, Reply, Step, TenantName};
use std::alloc::Global;

/// Where the entries of a tenant stand, from its opening on.
#[derive(Drop)]
pub(crate) struct Part {
    places: Vec<usize>,
}

impl Part {
    fn new(alloc: Global) -> Part {
        Part {
            places: Vec::new(alloc),
        }
    }

    fn add(&mut self, place: usize) -> Result<(), NoMemory> {
        self.places.push(place)?;
        Ok(())
    }

    /// Where they stand, in order.
    pub(crate) fn places(&self) -> &[usize] {
        self.places.as_slice()
    }

    /// The tenant's name and its quotas, as it was opened with.
    pub(crate) fn opening<'a>(&self, history: &'a [Entry]) -> Option<(&'a str, Quota)> {
        let first = self.places.first()?;
        match &history.get(*first)?.step {
            Step::Open { tenant, quota, .. } => Some((tenant.as_str(), *quota)),
            _ => None,
        }
    }
}

/// The part of each tenant that the history opens, by its name, in the order of opening.
///
/// # Errors
///
/// `NoMemory` where there is none for them.
pub(crate) fn parts_of(
    alloc: Global,
    history: &[Entry],
) -> Result<IndexMap<TenantName, Part>, NoMemory> {
    let mut parts = IndexMap::new(alloc);
    for (place, entry) in history.iter().enumerate() {
        let tenant = entry.step.tenant();
        if let Reply::Opened { .. } = entry.reply {
            let _ = parts.insert(tenant.copy(), Part::new(alloc))?;
        }
        if let Some(part) = parts.get_mut(tenant) {
            part.add(place)?;
        }
    }
    Ok(parts)
}
