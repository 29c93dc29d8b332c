//! Where items lie that copies can share.

ghost use Rattle.std.specs.Prelude.{◌≡◌, ◌<◌, IfOk, IfSome, OnOk, OnErr, Some, false, length, slice_set, unwrap_or};
ghost use Rattle.std.specs.Option.{option_map};
ghost use Rattle.riscv.specs.Storages.{items_of, is_shared};

use std::alloc::{AllocError, Global};
use std::mem;
use std::sync::Arc;

/// Where items lie that copies can share.
#[derive(Drop)]
pub(crate) enum Storage<T> {
    // Nowhere: there are none, or they are as at first.
    Nowhere,
    // In a place of their own, to be written.
    Own(Vec<T>),
    // In one place with copies, which goes with the last of them.
    Shared(Arc<Vec<T>>),
}

impl<T: Drop> Storage<T> {
    /// Lets copies share the place. The items do not move, and stay the same whatever is returned.
    #[inline]
    pub(crate) fn share(&mut self, alloc: Global) -> Result<(), AllocError>
        ensures { items_of self.new ≡ items_of self.old }
    {
        match self {
            Storage::Own(_) => self.share_own(alloc),
            _ => Ok(()),
        }
    }

    /// The same, where they lie in a place of their own.
    #[inline(never)]
    fn share_own(&mut self, alloc: Global) -> Result<(), AllocError>
        ensures { items_of self.new ≡ items_of self.old }
    {
        match mem::replace(self, Storage::Nowhere) {
            Storage::Own(items) => match Arc::new(alloc, items) {
                Ok(shared) => *self = Storage::Shared(shared),
                Err(refused) => {
                    *self = Storage::Own(refused.value);
                    return Err(AllocError);
                }
            },
            other => *self = other,
        }
        Ok(())
    }
}

impl<T: Copy> Storage<T> {
    /// Equal items, which share the place where it can be shared.
    #[inline]
    pub(crate) fn copy(&self, alloc: Global) -> Result<Storage<T>, AllocError>
        ensures { IfOk result (λ s. items_of s ≡ items_of self.now) }
    {
        match self {
            Storage::Nowhere => Ok(Storage::Nowhere),
            Storage::Own(items) => Ok(Storage::Own(Vec::from_slice(alloc, items.as_slice())?)),
            Storage::Shared(items) => Ok(Storage::Shared(items.clone()?)),
        }
    }

    /// Takes a place of their own for items that lie in a shared one.
    pub(crate) fn part(&mut self, alloc: Global) -> Result<(), AllocError>
        ensures same { items_of self.new ≡ items_of self.old }
        ensures parted { OnOk result (is_shared self.new ≡ false) }
    {
        if let Storage::Shared(shared) = &*self {
            let items = Vec::from_slice(alloc, shared.as_slice())?;
            *self = Storage::Own(items);
        }
        Ok(())
    }

    /// The same; where there are none, these are put there.
    pub(crate) fn own(&mut self, alloc: Global, first: &[T]) -> Result<(), AllocError>
        ensures ok { OnOk result (items_of self.new ≡ Some (unwrap_or (items_of self.old) first.now)) }
        ensures parted { OnOk result (is_shared self.new ≡ false) }
        ensures err { OnErr result (items_of self.new ≡ items_of self.old) }
    {
        let items = match &*self {
            Storage::Own(_) => return Ok(()),
            Storage::Nowhere => Vec::from_slice(alloc, first)?,
            Storage::Shared(shared) => Vec::from_slice(alloc, shared.as_slice())?,
        };
        *self = Storage::Own(items);
        Ok(())
    }

    /// Puts another item in the place of one, where there are items.
    #[inline(always)]
    pub(crate) fn put(&mut self, at: usize, item: T)
        requires parted { is_shared self.old ≡ false }
        requires within { IfSome (items_of self.old) (λ xs. at < length xs) }
        ensures { items_of self.new ≡ option_map (λ xs. slice_set xs at item) (items_of self.old) }
    {
        match self {
            Storage::Own(items) => items[at] = item,
            _ => {}
        }
    }
}
