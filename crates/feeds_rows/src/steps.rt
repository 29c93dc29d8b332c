//! The steps of feeds.

ghost use Rattle.std.specs.Prelude.{◌<◌, ◌^◌, IfOk, vec_len};

use model::{
    Letter, MAX_HELD_QUOTA, MAX_LETTERS_QUOTA, MAX_OPTIMISM, MAX_VOLATILE_QUOTA, NoMemory, Quota,
    Step, TenantName, Text, Texts, Unit,
};
use std::alloc::Global;

fn name(text: &str) -> Result<TenantName, NoMemory> {
    TenantName::new(text).ok_or(NoMemory)
}

/// The opening of a tenant with units of these kinds.
pub(crate) fn open(alloc: Global, tenant: &str, kinds: &[&str]) -> Result<Step, NoMemory> {
    let mut names = Vec::new(alloc);
    for kind in kinds {
        names.push(Text::of(alloc, kind)?)?;
    }
    Ok(Step::Open {
        tenant: name(tenant)?,
        kinds: Texts::new(names)?,
        quota: Quota {
            volatile: MAX_VOLATILE_QUOTA,
            held: MAX_HELD_QUOTA,
            letters: MAX_LETTERS_QUOTA,
        },
        optimism: MAX_OPTIMISM,
    })
}

/// A post to a unit.
pub(crate) fn post(
    alloc: Global,
    tenant: &str,
    unit: u8,
    number: u32,
    text: &str,
) -> Result<Step, NoMemory> {
    Ok(Step::Post {
        tenant: name(tenant)?,
        unit: Unit::new(unit),
        number,
        text: Text::of(alloc, text)?,
    })
}

/// The delivery of a letter.
pub(crate) fn deliver(alloc: Global, tenant: &str, letter: u32) -> Result<Step, NoMemory> {
    Ok(Step::Deliver {
        tenant: name(tenant)?,
        letter: Letter::new(letter),
    })
}

/// An open of one echo, so many posts of this text, and a status.
pub(crate) fn feed(
    alloc: Global,
    tenant: &str,
    posts: u32,
    text: &str,
) -> Result<Vec<Step>, NoMemory> {
    let mut steps = Vec::new(alloc);
    push(&mut steps, open(alloc, tenant, &["echo"]))?;
    push_posts(alloc, &mut steps, tenant, posts, text)?;
    push(&mut steps, status(tenant))?;
    Ok(steps)
}

/// The status of unit 0.
fn status(tenant: &str) -> Result<Step, NoMemory> {
    Ok(Step::Status {
        tenant: name(tenant)?,
        unit: Unit::new(0),
    })
}

/// One more step, where it found memory.
pub(crate) fn push(steps: &mut Vec<Step>, step: Result<Step, NoMemory>) -> Result<(), NoMemory> {
    steps.push(step?)?;
    Ok(())
}

/// So many posts of this text to unit 0.
pub(crate) fn push_posts(
    alloc: Global,
    steps: &mut Vec<Step>,
    tenant: &str,
    posts: u32,
    text: &str,
) -> Result<(), NoMemory> {
    for number in 0..posts {
        push(steps, post(alloc, tenant, 0, number, text))?;
    }
    Ok(())
}

/// These two feeds.
pub(crate) fn both(
    alloc: Global,
    first: Vec<Step>,
    second: Vec<Step>,
) -> Result<Vec<Vec<Step>>, NoMemory>
    ensures { IfOk result (λ all. vec_len all < 2 ^ 32) }
{
    let mut all = Vec::new(alloc);
    all.push(first)?;
    all.push(second)?;
    Ok(all)
}

/// One feed of tenant `a` and one of tenant `b`.
pub(crate) fn feeds(alloc: Global, posts: u32, texts: [&str; 2]) -> Result<Vec<Vec<Step>>, NoMemory>
    ensures { IfOk result (λ all. vec_len all < 2 ^ 32) }
{
    let first = feed(alloc, "a", posts, texts[0])?;
    let second = feed(alloc, "b", posts, texts[1])?;
    both(alloc, first, second)
}
