//! The name of the tenant whose record came last.

ghost use Rattle.std.specs.Prelude.{◌≡◌, IfOk, IfSome};
ghost use Rattle.std.specs.Arc.{arc_value};

use model::{NoMemory, TenantName};
use std::alloc::Global;
use std::sync::Arc;

/// The name that was asked for last, so that who asks for the same one next shares its place.
#[derive(Drop)]
pub(crate) struct LastName {
    alloc: Global,
    last: Option<Arc<TenantName>>,
}

impl LastName {
    pub(crate) fn new(alloc: Global) -> LastName {
        LastName { alloc, last: None }
    }

    /// The last name, where it is this one.
    #[inline(always)]
    fn shared(&self, name: &TenantName) -> Option<Arc<TenantName>>
        ensures { IfSome result (λ shared. arc_value shared ≡ name.now) }
    {
        match &self.last {
            Some(last) if **last == *name => Arc::try_clone(last).ok(),
            _ => None,
        }
    }

    /// A place that has this name: the last one, where that has it. Any other takes memory.
    #[inline(always)]
    pub(crate) fn place_of(&mut self, name: &TenantName) -> Result<Arc<TenantName>, NoMemory>
        ensures { IfOk result (λ place. arc_value place ≡ name.now) }
    {
        if let Some(shared) = self.shared(name) {
            return Ok(shared);
        }
        let own = Arc::new(self.alloc, name.copy())?;
        self.last = Arc::try_clone(&own).ok();
        Ok(own)
    }
}
