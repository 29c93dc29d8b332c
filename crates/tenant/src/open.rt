//! The step `open`.

ghost use Rattle.std.specs.Prelude.{◌≡◌, ◌<◌, ◌≤◌, [], IfOk, IfSome, List, length, not, replicate};
ghost use Rattle.std.specs.List.{list_any, fold};
ghost use Rattle.std.specs.Option.{is_none};
ghost use Rattle.model.specs.Steps.{can_open as can_open_with, is_quota as is_quota_of, within as is_within, kind_or_0};
ghost use Rattle.tenant.specs.Past.{OpensPast};
ghost use Rattle.tenant.specs.Kept.{KeepsNoText, KeepsTexts, gone_of, opened_kept, released_of, with_begun};
ghost use Rattle.tenant.specs.Outcomes.{IsPlain};
ghost use Rattle.tenant.specs.Represents.{OpensAs};
ghost use Rattle.tenant.specs.Stands.{IsOpened};

use crate::answer::Answer;
use crate::member::Member;
use crate::tenant::Tenant;
use certificate::kind_of;
use handler::Handler;
use incarnation::StartTable;
use model::{
    Kind, MAX_HELD_QUOTA, MAX_LETTERS_QUOTA, MAX_OPTIMISM, MAX_UNITS, MAX_VOLATILE_QUOTA, NoMemory,
    Quota, Refusal, Reply, Seat, Text, Texts, Unit,
};
use output_commit::Outlet;
use std::alloc::Global;
use unit_steps::SentLetters;

fn within(low: u32, x: u32, high: u32) -> bool
    ensures { result ≡ is_within low x high }
{
    low <= x && x <= high
}

fn is_quota(q: Quota) -> bool
    ensures { result ≡ is_quota_of q }
{
    within(1, q.volatile, MAX_VOLATILE_QUOTA)
        && within(1, q.held, MAX_HELD_QUOTA)
        && within(1, q.letters, MAX_LETTERS_QUOTA)
}

fn is_unknown<H: Handler>(handler: &H, name: &Text) -> bool
    ensures { result ≡ is_none (H.meaning.kind name.now) }
{
    handler.kind(name.as_str()).is_none()
}

fn has_unknown<H: Handler>(handler: &H, names: &[Text]) -> bool
    ensures { result ≡ list_any (λ n. is_none (H.meaning.kind n)) names.now }
{
    names.iter().any(|n| is_unknown(handler, n))
}

fn are_few(count: usize) -> bool
    ensures { result ≡ is_within 1 count MAX_UNITS }
{
    1 <= count && count <= MAX_UNITS
}

fn can_open<H: Handler>(handler: &H, names: &[Text], quota: Quota, optimism: u32) -> bool
    ensures { result ≡ can_open_with H.meaning names.now quota optimism }
{
    are_few(names.len())
        && !has_unknown(handler, names)
        && is_quota(quota)
        && optimism <= MAX_OPTIMISM
}

/// One unit more, at its beginning.
fn begin_one<H: Handler>(
    alloc: Global,
    handler: &H,
    members: &mut Vec<Member<H>>,
    kind: Kind,
    home: u8,
) -> Result<(), NoMemory>
    requires { length members.old.items < 256 }
    ensures { IfOk result (λ _. members.new.items ≡ with_begun H.meaning home members.old.items kind) }
{
    let unit = Unit::new(members.len() as u8);
    let seat = Seat { unit, kind, home };
    let member = Member::begin(alloc, handler, seat, usize::from(home), 0)?;
    members.push(member)?;
    Ok(())
}

/// Units of these kinds, each at its beginning.
fn begin_all<H: Handler>(
    alloc: Global,
    handler: &H,
    names: &[Text],
) -> Result<Vec<Member<H>>, NoMemory>
    requires { length names.now ≤ MAX_UNITS }
    ensures { IfOk result (λ ms.
        ms.items ≡ fold (λ ms n.
        with_begun H.meaning (length names.now) ms (kind_or_0 (H.meaning.kind n))) [] names.now) }
{
    let mut members = Vec::with_capacity(alloc, names.len())?;
    let home = names.len() as u8;
    for name in names {
        begin_one(alloc, handler, &mut members, kind_of(handler, name), home)?;
    }
    Ok(members)
}

/// Lines for so many units, none of which released anything.
fn empty_outlet(alloc: Global, width: usize) -> Result<Outlet, NoMemory>
    ensures gone { IfOk result (λ o. gone_of o ≡ replicate width 0) }
    ensures texts { IfOk result (λ o. released_of o ≡ replicate width []) }
{
    let outlet = Outlet::new(alloc, width)?;
    Ok(outlet)
}

impl<H: Handler> Tenant<H> {
    fn opened_with(
        alloc: Global,
        handler: &H,
        names: &[Text],
        quota: Quota,
        optimism: u32,
    ) -> Result<Tenant<H>, NoMemory>
        requires { length names.now ≤ MAX_UNITS }
        ensures { IfOk result (λ t. t ≡ opened_kept H.meaning names.now quota optimism) }
    {
        let width = names.len();
        let members = begin_all(alloc, handler, names)?;
        let stable_lengths = vec![in alloc; 1; width]?;
        let frontiers = vec![in alloc; 1; width]?;
        let outlet = empty_outlet(alloc, width)?;
        Ok(Tenant {
            quota,
            optimism,
            table: StartTable::new(alloc),
            members,
            stable_lengths,
            frontiers,
            outlet,
            letters: SentLetters::new(alloc),
        })
    }

    /// The reply to an opening, and the tenant where it is opened.
    fn opening(
        alloc: Global,
        handler: &H,
        kinds: &Texts,
        quota: Quota,
        optimism: u32,
    ) -> Result<(Reply, Option<Tenant<H>>), NoMemory>
        ensures opens { IfOk result (λ p. OpensAs H.meaning kinds.now quota optimism p.0 p.1) }
        ensures past { IfOk result (λ p. IfSome p.1 (OpensPast p.0)) }
        ensures texts { IfOk result (λ p. IfSome p.1 KeepsTexts) }
        ensures none { IfOk result (λ p. IfSome p.1 KeepsNoText) }
    {
        let names = kinds.as_slice();
        if can_open(handler, names, quota, optimism) {
            let tenant = Tenant::opened_with(alloc, handler, names, quota, optimism)?;
            let units = names.len() as u64;
            return Ok((Reply::Opened { units }, Some(tenant)));
        }
        Ok((
            Reply::Refused {
                refusal: Refusal::BadOpen,
            },
            None,
        ))
    }

    /// Opens a tenant with units of these kinds, unit 0 first. There is none where it is refused
    /// (`bad-open`).
    ///
    /// # Errors
    ///
    /// `NoMemory` where what it keeps finds no memory.
    pub fn open(
        alloc: Global,
        handler: &H,
        kinds: &Texts,
        quota: Quota,
        optimism: u32,
    ) -> Result<(Answer, Option<Tenant<H>>), NoMemory>
        ensures opened { IfOk result (λ p. IsOpened H.meaning kinds.now quota optimism p.0.reply p.1) }
        ensures past { IfOk result (λ p. IfSome p.1 (OpensPast p.0.reply)) }
        ensures texts { IfOk result (λ p. IfSome p.1 KeepsTexts) }
        ensures none { IfOk result (λ p. IfSome p.1 KeepsNoText) }
        ensures plain { IfOk result (λ p. IsPlain p.0) }
    {
        let (reply, tenant) = Tenant::opening(alloc, handler, kinds, quota, optimism)?;
        let answer = Answer::plain(alloc, reply)?;
        Ok((answer, tenant))
    }
}
