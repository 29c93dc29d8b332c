//! Lists that are mostly short.

ghost use Rattle.std.specs.Prelude.{◌≡◌, IfOk};
ghost use Rattle.model.specs.Storage.{stored_items};

use crate::fault::NoMemory;
use std::alloc::Global;
use std::marker::Model;
use std::sync::ArcSlice;

/// How many items of a list lie in the value itself.
pub(crate) const MAX_INLINE_ITEMS: usize = 3;

/// Where the items of a list lie.
#[derive(Debug, Drop)]
enum ListStorage<T> {
    // In the value itself: the first so many of these.
    Zero,
    One([T; MAX_INLINE_ITEMS]),
    Two([T; MAX_INLINE_ITEMS]),
    Three([T; MAX_INLINE_ITEMS]),
    // In one place in memory, which goes with the last of its copies.
    Shared(ArcSlice<T>),
}

/// A list, seen as its items. A short one lies in the value itself; copies of any other share one place in memory,
/// which goes with the last of them.
#[derive(Debug, Drop)]
pub struct ShortList<T> {
    storage: ListStorage<T>,
}

impl<T> Model for ShortList<T> {
    ghost use Rattle.std.specs.Prelude.{List};
    ghost use Rattle.model.specs.Storage.{stored_items};

    ghost Value = { List T };

    ghost view = { λ l. stored_items l.storage };
}

impl<T: Copy> ShortList<T> {
    /// A list of its own of these items, which copies can share.
    ///
    /// # Errors
    ///
    /// `NoMemory` where they find no memory. A short list takes none.
    #[inline(always)]
    pub fn of(alloc: Global, items: &[T]) -> Result<ShortList<T>, NoMemory>
        ensures { IfOk result (λ l. l ≡ items.now) }
    {
        let storage = match items {
            [] => ListStorage::Zero,
            [a] => ListStorage::One([*a, *a, *a]),
            [a, b] => ListStorage::Two([*a, *b, *b]),
            [a, b, c] => ListStorage::Three([*a, *b, *c]),
            _ => ListStorage::Shared(ArcSlice::from_slice(alloc, items)?),
        };
        Ok(ShortList { storage })
    }

    /// These items, where they lie, for copies to share. Takes a few bytes.
    ///
    /// # Errors
    ///
    /// `NoMemory` where these bytes find no memory.
    #[inline(always)]
    pub fn shared(items: Vec<T>) -> Result<ShortList<T>, NoMemory>
        ensures { IfOk result (λ l. l ≡ items.items) }
    {
        let shared = ArcSlice::from_vec(items)?;
        Ok(ShortList {
            storage: ListStorage::Shared(shared),
        })
    }

    #[inline(always)]
    pub fn as_slice(&self) -> &[T]
        ensures { result.now ≡ self.now }
    {
        match &self.storage {
            ListStorage::Zero => &[],
            ListStorage::One(items) => &items[..1],
            ListStorage::Two(items) => &items[..2],
            ListStorage::Three(items) => items,
            ListStorage::Shared(items) => items.as_slice(),
        }
    }

    /// An equal list. It takes memory only where 2^63 - 1 lists share the items already.
    ///
    /// # Errors
    ///
    /// `NoMemory` where it finds none then.
    #[inline(always)]
    pub fn copy(&self, alloc: Global) -> Result<ShortList<T>, NoMemory>
        ensures { IfOk result (λ l. l ≡ self.now) }
    {
        let storage = match &self.storage {
            ListStorage::Zero => ListStorage::Zero,
            ListStorage::One(items) => ListStorage::One(*items),
            ListStorage::Two(items) => ListStorage::Two(*items),
            ListStorage::Three(items) => ListStorage::Three(*items),
            ListStorage::Shared(items) => match items.clone() {
                Ok(shared) => ListStorage::Shared(shared),
                Err(_) => return ShortList::of(alloc, items.as_slice()),
            },
        };
        Ok(ShortList { storage })
    }
}
