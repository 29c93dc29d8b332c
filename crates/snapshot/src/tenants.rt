//! Tenants.

ghost use Rattle.std.specs.Prelude.{◌≡◌, IfErr, IfOk};
ghost use Rattle.codec.specs.Codes.{Decodes, Encodes, Unless};
ghost use Rattle.snapshot.specs.Tenants.{outlet_code, tenant_code, FitsOutlet, FitsTenant};
ghost use Rattle.codec.specs.declared.fault.DecodeFault.{DecodeFault as FaultOf};
ghost use Rattle.tenant.specs.Kept.{gone_of, released_of};

use crate::members::{decode_members, encode_members};
use crate::outlets::{decode_outlet, encode_outlet};
use codec::{
    Coded, DecodeFault, Input, Portable, decode_letters, decode_list, encode_letters, encode_vec,
};
use incarnation::StartTable;
use model::{NoMemory, Quota};
use output_commit::Outlet;
use std::alloc::Global;
use tenant::Tenant;

/// Appends the bytes of what the units of a tenant gave up and released.
fn encode_lines(outlet: &Outlet, out: &mut Vec<u8>) -> Result<(), NoMemory>
    ensures code { IfOk result (λ _.
        Encodes outlet_code (gone_of outlet.now, released_of outlet.now) out.old.items out.new.items) }
    ensures fits { IfOk result (λ _. FitsOutlet (gone_of outlet.now, released_of outlet.now)) }
{
    encode_outlet(outlet, out)?;
    Ok(())
}

/// Takes the bytes of what the units of a tenant gave up and released off the input.
fn decode_lines(alloc: Global, input: &mut Input) -> Result<Outlet, DecodeFault>
    ensures ok { IfOk result (λ o.
        Decodes outlet_code FitsOutlet input.old (gone_of o, released_of o) input.new) }
    ensures err { IfErr result (λ e. Unless outlet_code FitsOutlet input.old (e ≡ FaultOf.NoMemory)) }
{
    match decode_outlet(alloc, input) {
        Ok(outlet) => Ok(outlet),
        Err(fault) => Err(fault),
    }
}

/// Appends the bytes of a tenant.
pub(crate) fn encode_tenant<H: Portable>(
    handler: &H,
    tenant: &Tenant<H>,
    out: &mut Vec<u8>,
) -> Result<(), NoMemory>
    ensures code { IfOk result (λ _. Encodes (tenant_code H.state_code) tenant.now out.old.items out.new.items) }
    ensures fits { IfOk result (λ _. FitsTenant H.state_fits tenant.now) }
{
    tenant.quota.encode(out)?;
    tenant.optimism.encode(out)?;
    tenant.table.encode(out)?;
    encode_members(handler, &tenant.members, out)?;
    encode_vec(&tenant.stable_lengths, out)?;
    encode_vec(&tenant.frontiers, out)?;
    encode_lines(&tenant.outlet, out)?;
    encode_letters(&tenant.letters, out)?;
    Ok(())
}

/// Takes the bytes of a tenant off the input.
pub(crate) fn decode_tenant<H: Portable>(
    handler: &H,
    alloc: Global,
    input: &mut Input,
) -> Result<Tenant<H>, DecodeFault>
    ensures ok { IfOk result (λ t. Decodes (tenant_code H.state_code) (FitsTenant H.state_fits) input.old t input.new) }
    ensures err { IfErr result (λ e.
        Unless (tenant_code H.state_code) (FitsTenant H.state_fits) input.old (e ≡ FaultOf.NoMemory)) }
{
    let quota = Quota::decode(alloc, input)?;
    let optimism = u32::decode(alloc, input)?;
    let table = StartTable::decode(alloc, input)?;
    let members = decode_members(handler, alloc, input)?;
    let stable_lengths = decode_list::<u64>(alloc, input)?;
    let frontiers = decode_list::<u64>(alloc, input)?;
    let outlet = decode_lines(alloc, input)?;
    let letters = decode_letters(alloc, input)?;
    Ok(Tenant {
        quota,
        optimism,
        table,
        members,
        stable_lengths,
        frontiers,
        outlet,
        letters,
    })
}
