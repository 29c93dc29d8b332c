//! The work of one step, whichever the tenant.

ghost use Rattle.std.specs.Prelude.{◌≡◌, [], ◌∷◌, ◌++◌, ℕ, List, IfOk, IsOk, OnOk, OnErr, Option};
ghost use Rattle.std.specs.Prelude.{None, Some, false, bytes_eq};
ghost use Rattle.indexmap.specs.IndexMap.{IsUnchanged, get, keys};
ghost use Rattle.model.specs.Addresses.{addressed, whole};
ghost use Rattle.model.specs.World.{World};
ghost use Rattle.model.specs.declared.records.Record.{Record};
ghost use Rattle.tenant.specs.Outcomes.{IsPlain};
ghost use Rattle.tenant.specs.Stands.{IsOpened, StandsAt};
ghost use Rattle.shared_log.specs.Logged.{Logged};
ghost use Rattle.book.specs.Commits.{needs_at};
ghost use Rattle.book.specs.Entries.{memory_reply as reply_of_memory, memory_reply_to as reply_by_kind};
ghost use Rattle.book.specs.Entries.{own_memory_reply as reply_of_own};
ghost use Rattle.model.specs.Keeping.{Keeping};
ghost use Rattle.book.specs.Past.{KeepsAt, KeepsOnAt};
ghost use Rattle.book.specs.Standing.{KeepNoTexts, KeepNoTextsBut, KeepTexts, Releases};
ghost use Rattle.book.specs.History.{DidAt, holding, opened_by};

use handler::{Ask, Handler};
use indexmap::IndexMap;
use model::{
    AddressedStep, NoMemory, Quota, Refusal, Reply, Step, TenantName, TenantStep, Texts, Unit,
};
use std::alloc::Global;
use tenant::{Answer, Tenant};

/// The open tenants by their names, in the order of opening.
pub(crate) type Tenants<H> = IndexMap<TenantName, Tenant<H>>;

/// Whether the step is a flush.
pub(crate) fn is_flush(step: &TenantStep) -> bool
    ensures { reply_of_own step.now ≡ reply_by_kind result }
{
    match step {
        TenantStep::Flush { .. } => true,
        _ => false,
    }
}

/// The reply to a flush, or to another step, for which there was no memory.
pub(crate) fn memory_reply_to(flush: bool) -> Reply
    ensures { result ≡ reply_by_kind flush }
{
    if flush {
        Reply::Stopped {
            count: 0,
            refusal: Refusal::Memory,
        }
    } else {
        Reply::Refused {
            refusal: Refusal::Memory,
        }
    }
}

/// The reply to a step for which there was no memory.
pub(crate) fn memory_reply(step: &Step) -> Reply
    ensures { result ≡ reply_of_memory step.now }
{
    match step {
        Step::Flush { .. } => memory_reply_to(true),
        _ => memory_reply_to(false),
    }
}

/// The unit that the step releases, if it is a release.
pub(crate) fn released_unit(step: &TenantStep) -> Option<Unit>
    ensures { Releases step.now result }
{
    match step {
        TenantStep::Release { unit } => Some(*unit),
        _ => None,
    }
}

/// The same of a step of any tenant.
pub(crate) fn unit_released(step: &Step) -> Option<Unit>
    ensures { Releases (addressed step.now).1 result }
{
    match step {
        Step::Release { unit, .. } => Some(*unit),
        _ => None,
    }
}

/// The answer to a step of a tenant that is not open, other than `open`.
fn no_tenant_answer() -> Answer
    ensures plain { IsPlain result }
    ensures reply { result.reply ≡ Reply.Refused Refusal.NoTenant }
{
    Answer::refused(Refusal::NoTenant)
}

/// Puts a tenant in under a name that is not there. Where no memory was found the tenant is let go.
fn put<H: Handler>(
    tenants: &mut Tenants<H>,
    name: TenantName,
    tenant: Tenant<H>,
) -> Result<(), NoMemory>
    requires { get bytes_eq tenants.old name ≡ None }
    ensures here { OnOk result (get bytes_eq tenants.new name ≡ Some tenant) }
    ensures names { OnOk result (keys tenants.new ≡ keys tenants.old ++ name ∷ []) }
    ensures others { (t : List ℕ) → bytes_eq t name ≡ false → get bytes_eq tenants.new t ≡ get bytes_eq tenants.old t }
    ensures err { OnErr result (IsUnchanged tenants.old tenants.new) }
{
    match tenants.insert(name, tenant) {
        Ok(_) => Ok(()),
        Err(_) => Err(NoMemory),
    }
}

/// Opens a tenant that is not there. It is put in only if it was opened.
fn open_new<H: Handler>(
    alloc: Global,
    handler: &H,
    tenants: &mut Tenants<H>,
    name: &TenantName,
    kinds: &Texts,
    quota: Quota,
    optimism: u32,
) -> Result<Answer, NoMemory>
    requires { get bytes_eq tenants.old name.now ≡ None }
    ensures plain { IfOk result IsPlain }
    ensures opened { IfOk result (λ a.
        IsOpened H.meaning kinds.now quota optimism a.reply (get bytes_eq tenants.new name.now)) }
    ensures keeps { IfOk result (λ a.
        KeepsOnAt H.meaning None None (record { step = TenantStep.Open kinds.now quota optimism; said = a.said })
        (get bytes_eq tenants.new name.now)) }
    ensures names { IfOk result (λ a.
        keys tenants.new ≡ keys tenants.old
        ++ opened_by name.now (TenantStep.Open kinds.now quota optimism) a.reply) }
    ensures others { (t : List ℕ) → bytes_eq t name.now ≡ false
        → get bytes_eq tenants.new t ≡ get bytes_eq tenants.old t }
    ensures err { OnErr result (IsUnchanged tenants.old tenants.new) }
    ensures texts { KeepTexts (get bytes_eq tenants.old) → KeepTexts (get bytes_eq tenants.new) }
    ensures none { KeepNoTexts (get bytes_eq tenants.old) → KeepNoTexts (get bytes_eq tenants.new) }
{
    if tenants.reserve(1).is_err() {
        return Err(NoMemory);
    }
    let own_name = name.copy();
    let (answer, opened) = Tenant::open(alloc, handler, kinds, quota, optimism)?;
    match opened {
        None => Ok(answer),
        Some(tenant) => {
            put(tenants, own_name, tenant)?;
            Ok(answer)
        }
    }
}

/// Does a step of a tenant that is not open.
#[tactic(auto, using(shared_log::proofs::LeftLaws::same_grows, crate::proofs::Live::unopened_just))]
pub(crate) fn answer_unopened<H: Handler>(
    alloc: Global,
    handler: &H,
    tenants: &mut Tenants<H>,
    name: &TenantName,
    step: TenantStep,
) -> Result<Answer, NoMemory>
    requires { get bytes_eq tenants.old name.now ≡ None }
    ensures did { IfOk result (λ a. (log : Logged)
        → DidAt H.meaning name.now None step a.said a.reply (holding tenants.old log) (holding tenants.new log)) }
    ensures others { (t : List ℕ) → bytes_eq t name.now ≡ false
        → get bytes_eq tenants.new t ≡ get bytes_eq tenants.old t }
    ensures kill { (unit : ℕ) → step ≡ TenantStep.Kill unit → IsOk result }
    ensures err { OnErr result (IsUnchanged tenants.old tenants.new) }
    ensures texts { KeepTexts (get bytes_eq tenants.old) → KeepTexts (get bytes_eq tenants.new) }
    ensures none { KeepNoTexts (get bytes_eq tenants.old) → KeepNoTexts (get bytes_eq tenants.new) }
{
    match step {
        TenantStep::Open {
            kinds,
            quota,
            optimism,
        } => open_new(alloc, handler, tenants, name, &kinds, quota, optimism),
        _ => Ok(no_tenant_answer()),
    }
}

/// The step without the name of its tenant. `NoMemory` comes where its texts can't be copied, which a kill has none of.
pub(crate) fn step_within(step: &Step) -> Result<TenantStep, NoMemory>
    ensures same { IfOk result (λ s. s ≡ (addressed step.now).1) }
    ensures kill { (tenant : List ℕ) (unit : ℕ) → step.now ≡ Step.Kill tenant unit → IsOk result }
{
    match step {
        Step::Kill { unit, .. } => Ok(TenantStep::Kill { unit: *unit }),
        _ => step.tenant_step(),
    }
}

/// The step of the tenant of this name that is this one for the tenant, a copy. `NoMemory` comes where its texts can't
/// be copied.
pub(crate) fn whole_copy(name: &TenantName, own: &TenantStep) -> Result<Step, NoMemory>
    ensures { IfOk result (λ s. s ≡ whole name.now own.now) }
{
    let tenant = name.copy();
    let own = own.copy()?;
    Ok(AddressedStep { tenant, own }.into_step())
}

/// Gives up the texts that a unit of the tenant of this name released, if both are there.
pub(crate) fn give_up<H: Handler>(tenants: &mut Tenants<H>, name: &TenantName, unit: Unit)
    ensures stands { (t : List ℕ) (w : Option World) (records : List (Option Record))
        → StandsAt H.meaning t (get bytes_eq tenants.old t) w records
        → StandsAt H.meaning t (get bytes_eq tenants.new t) w records }
    ensures keeps { (t : List ℕ) (k : Keeping) → KeepsAt (get bytes_eq tenants.old t) k
        → KeepsAt (get bytes_eq tenants.new t) k }
    ensures names { keys tenants.new ≡ keys tenants.old }
    // Where the unit alone kept texts, none does then.
    ensures none { KeepNoTextsBut name.now (TenantStep.Release unit) (get bytes_eq tenants.old)
        → KeepNoTexts (get bytes_eq tenants.new) }
{
    if let Some(tenant) = tenants.get_mut(name) {
        tenant.give_up(unit);
    }
}

/// The input of the turn that a step of any tenant now needs, if it needs one.
pub(crate) fn ask<H: Handler>(
    alloc: Global,
    handler: &H,
    tenants: &Tenants<H>,
    step: &Step,
) -> Result<Option<Ask<H>>, NoMemory>
    ensures { IfOk result (λ a. (w : Option World) (records : List (Option Record))
        → StandsAt H.meaning (addressed step.now).0 (get bytes_eq tenants.now (addressed step.now).0) w records
        → a ≡ needs_at H.meaning w (addressed step.now).1) }
{
    let Some(tenant) = tenants.get(step.tenant()) else {
        return Ok(None);
    };
    let own_step = step.tenant_step()?;
    tenant.prepare(alloc, handler, &own_step)
}
