//! The open tenants under their names.

ghost use Rattle.std.specs.Prelude.{◌≡◌, ◌++◌, ◌∷◌, [], ℕ, IfErr, IfOk, List, None, Some, bytes_eq, length, slice_get};
ghost use Rattle.std.specs.List.{IsDistinct};
ghost use Rattle.std.specs.Map.{keys_of};
ghost use Rattle.codec.specs.Codes.{each_code, AllFit, Decodes, DecodesEach, DecodesOnto, Encodes, Unless};
ghost use Rattle.codec.specs.declared.fault.DecodeFault.{DecodeFault as FaultOf};
ghost use Rattle.indexmap.specs.IndexMap.{get};
ghost use Rattle.snapshot.specs.Hosts.{entries_code, entry_code, FitEntries, FitsEntry};
ghost use Rattle.tenant.specs.Kept.{TenantState};

use crate::tenants::{decode_tenant, encode_tenant};
use codec::{Coded, DecodeFault, Input, Portable};
use handler::Handler;
use indexmap::IndexMap;
use model::{NoMemory, TenantName};
use std::alloc::Global;
use tenant::Tenant;

/// Tenants under their names, in the order of opening.
pub(crate) type Tenants<H> = IndexMap<TenantName, Tenant<H>>;

/// Appends the bytes of a name and of its tenant.
fn encode_named<H: Portable>(
    handler: &H,
    name: &TenantName,
    tenant: &Tenant<H>,
    out: &mut Vec<u8>,
) -> Result<(), NoMemory>
    ensures code { IfOk result (λ _.
        Encodes (entry_code H.state_code) (name.now, tenant.now) out.old.items out.new.items) }
    ensures fits { IfOk result (λ _. FitsEntry H.state_fits (name.now, tenant.now)) }
{
    name.encode(out)?;
    encode_tenant(handler, tenant, out)?;
    Ok(())
}

/// Appends the bytes of the tenant at this place with its name, if there is one.
fn encode_entry<H: Portable>(
    handler: &H,
    tenants: &Tenants<H>,
    place: usize,
    out: &mut Vec<u8>,
) -> Result<(), NoMemory>
    ensures code { IfOk result (λ _. (e : List ℕ × TenantState H.State)
        → slice_get tenants.now.entries place ≡ Some e
        → Encodes (entry_code H.state_code) e out.old.items out.new.items) }
    ensures fits { IfOk result (λ _. (e : List ℕ × TenantState H.State)
        → slice_get tenants.now.entries place ≡ Some e → FitsEntry H.state_fits e) }
{
    if let Some((name, tenant)) = tenants.get_index(place) {
        encode_named(handler, name, tenant, out)?;
    }
    Ok(())
}

/// Appends the bytes of each tenant.
fn encode_each_entry<H: Portable>(
    handler: &H,
    tenants: &Tenants<H>,
    count: usize,
    out: &mut Vec<u8>,
) -> Result<(), NoMemory>
    requires { count ≡ length tenants.now.entries }
    ensures code { IfOk result (λ _.
        Encodes (each_code (entry_code H.state_code)) tenants.now.entries out.old.items out.new.items) }
    ensures fits { IfOk result (λ _. AllFit (FitsEntry H.state_fits) tenants.now.entries) }
{
    for place in 0..count {
        encode_entry(handler, tenants, place, out)?;
    }
    Ok(())
}

/// Appends the bytes of the tenants: how many there are, and each with its name, in the order of opening.
pub(crate) fn encode_entries<H: Portable>(
    handler: &H,
    tenants: &Tenants<H>,
    out: &mut Vec<u8>,
) -> Result<(), NoMemory>
    ensures code { IfOk result (λ _.
        Encodes (entries_code H.state_code) tenants.now.entries out.old.items out.new.items) }
    ensures fits { IfOk result (λ _. FitEntries H.state_fits tenants.now.entries) }
{
    let count = tenants.len();
    count.encode(out)?;
    encode_each_entry(handler, tenants, count, out)?;
    Ok(())
}

/// Adds a tenant under a name that is not there.
fn put_new<H: Handler>(
    tenants: &mut Tenants<H>,
    name: TenantName,
    tenant: Tenant<H>,
) -> Result<(), DecodeFault>
    ensures ok { IfOk result (λ _. tenants.new.entries ≡ tenants.old.entries ++ (name, tenant) ∷ []) }
    ensures err { IfErr result (λ e. get bytes_eq tenants.old name ≡ None → e ≡ FaultOf.NoMemory) }
{
    if tenants.contains_key(&name) {
        return Err(DecodeFault::Damaged);
    }
    match tenants.insert(name, tenant) {
        Ok(_) => Ok(()),
        Err(_) => Err(DecodeFault::NoMemory),
    }
}

/// Takes the bytes of a tenant with its name off the input, and adds it at the end.
fn decode_onto<H: Portable>(
    handler: &H,
    alloc: Global,
    input: &mut Input,
    tenants: &mut Tenants<H>,
) -> Result<(), DecodeFault>
    ensures ok { IfOk result (λ _. DecodesOnto (entry_code H.state_code) (FitsEntry H.state_fits)
        input.old tenants.old.entries tenants.new.entries input.new) }
    ensures err { IfErr result (λ e. Unless (entry_code H.state_code)
        (λ entry. FitsEntry H.state_fits entry × (get bytes_eq tenants.old entry.0 ≡ None))
        input.old (e ≡ FaultOf.NoMemory)) }
{
    let name = TenantName::decode(alloc, input)?;
    let tenant = decode_tenant(handler, alloc, input)?;
    put_new(tenants, name, tenant)?;
    Ok(())
}

/// Takes the bytes of so many tenants off the input, and adds them to a map that has none.
fn decode_all_onto<H: Portable>(
    handler: &H,
    alloc: Global,
    input: &mut Input,
    count: usize,
    tenants: &mut Tenants<H>,
) -> Result<(), DecodeFault>
    requires { length tenants.old.entries ≡ 0 }
    ensures ok { IfOk result (λ _. DecodesEach (entry_code H.state_code) (FitsEntry H.state_fits) count
        input.old tenants.new.entries input.new) }
    ensures err { IfErr result (λ e. Unless (each_code (entry_code H.state_code)) (λ entries.
        (length entries ≡ count) × AllFit (FitsEntry H.state_fits) entries × IsDistinct bytes_eq (keys_of entries))
        input.old (e ≡ FaultOf.NoMemory)) }
{
    for _ in 0..count {
        decode_onto(handler, alloc, input, tenants)?;
    }
    Ok(())
}

/// Takes the bytes of the tenants off the input.
///
/// # Errors
///
/// `Cut` and `Damaged` where the bytes are those of no tenants, also where a name comes twice, `NoMemory` where the
/// tenants find no memory: of bytes that were encoded there is no other.
pub(crate) fn decode_entries<H: Portable>(
    handler: &H,
    alloc: Global,
    input: &mut Input,
) -> Result<Tenants<H>, DecodeFault>
    ensures ok { IfOk result (λ m. Decodes (entries_code H.state_code) (FitEntries H.state_fits)
        input.old m.entries input.new) }
    ensures err { IfErr result (λ e. Unless (entries_code H.state_code) (FitEntries H.state_fits)
        input.old (e ≡ FaultOf.NoMemory)) }
{
    let count = usize::decode(alloc, input)?;
    let mut tenants = IndexMap::new(alloc);
    decode_all_onto(handler, alloc, input, count, &mut tenants)?;
    Ok(tenants)
}
