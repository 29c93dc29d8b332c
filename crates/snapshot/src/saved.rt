//! A host as bytes, and back.

ghost use Rattle.std.specs.Prelude.{◌≡◌, ◌≢◌, ◌⊎◌, ℕ, IfErr, IfOk, List};
ghost use Rattle.book.specs.Standing.{Hosted, ReplaysAsWell};
ghost use Rattle.snapshot.specs.Hosts.{IsBody, IsSaved};
ghost use Rattle.tenant.specs.Kept.{TenantState};

use crate::entries::{decode_entries, encode_entries};
use crate::load_fault::LoadFault;
use crate::log::{decode_log, encode_log};
use crate::sealing::{sealed, unsealed};
use book::Host;
use codec::{Input, Portable, encode_bytes};
use model::NoMemory;
use shared_log::MemoryStore;
use std::alloc::Global;

/// The bytes of which handler it is about, the tenants and the log.
fn body_of<H: Portable>(
    alloc: Global,
    handler: &H,
    about: &str,
    host: &Host<H, MemoryStore>,
) -> Result<Vec<u8>, NoMemory>
    ensures { IfOk result (λ body. IsBody H.state_code H.state_fits about.now host.now body.items) }
{
    let mut body = Vec::new(alloc);
    encode_bytes(about.as_bytes(), &mut body)?;
    encode_entries(handler, host.by_name(), &mut body)?;
    encode_log(alloc, host.log(), &mut body)?;
    Ok(body)
}

/// A host with its records in memory, as bytes. `about` names the handler and its version: `load` asks for the same.
///
/// # Errors
///
/// `NoMemory` where the bytes find no memory.
pub fn save<H: Portable>(
    alloc: Global,
    handler: &H,
    about: &str,
    host: &Host<H, MemoryStore>,
) -> Result<Vec<u8>, NoMemory>
    ensures { IfOk result (λ bytes. IsSaved H.state_code H.state_fits about.now host.now bytes.items) }
{
    let body = body_of(alloc, handler, about, host)?;
    let all = sealed(alloc, body.as_slice())?;
    Ok(all)
}

/// The host of these bytes, with its records in memory. Of the bytes that `save` gave of a host it is an equal one, and
/// so the replay of the same histories. Bytes that `save` gave about the same handler are never refused but for want of
/// memory, and those that it gave about another one are never loaded.
///
/// # Errors
///
/// `NotASnapshot`, `AnotherVersion` and `AnotherHandler` where the head or the handler's name are others; `Cut` where
/// the bytes end too early; `Damaged` where they don't have their digest, or are those of no host; `NoMemory` where the
/// host finds no memory, of which it takes no more than the input's length allows.
pub fn load<H: Portable>(
    alloc: Global,
    handler: H,
    about: &str,
    bytes: &[u8],
) -> Result<Host<H, MemoryStore>, LoadFault>
    ensures same { IfOk result (λ host. (saved : Hosted (TenantState H.State))
        → IsSaved H.state_code H.state_fits about.now saved bytes.now → saved ≡ host) }
    ensures replays { IfOk result (λ host. (saved : Hosted (TenantState H.State))
        → IsSaved H.state_code H.state_fits about.now saved bytes.now → ReplaysAsWell H.meaning saved host) }
    ensures err { IfErr result (λ e. (saved : Hosted (TenantState H.State))
        → IsSaved H.state_code H.state_fits about.now saved bytes.now → e ≡ LoadFault.NoMemory) }
    ensures other { IfOk result (λ _. (saved : Hosted (TenantState H.State)) (named : List ℕ)
        → IsSaved H.state_code H.state_fits named saved bytes.now → named ≡ about.now) }
    ensures refused { IfErr result (λ e. (saved : Hosted (TenantState H.State)) (named : List ℕ)
        → IsSaved H.state_code H.state_fits named saved bytes.now → named ≢ about.now
        → (e ≡ LoadFault.AnotherHandler) ⊎ (e ≡ LoadFault.NoMemory)) }
{
    let mut input = Input::new(bytes);
    unsealed(alloc, &mut input, about)?;
    let tenants = decode_entries(&handler, alloc, &mut input)?;
    let log = decode_log(alloc, &mut input)?;
    if input.len() != 0 {
        return Err(LoadFault::Damaged);
    }
    Ok(Host::of(alloc, handler, log, tenants))
}
