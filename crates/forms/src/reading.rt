//! The step that a line is.
//!
//! A form looks up the keys that it lists, and then counts the members: an object has each key
//! once, so the count and the look-ups say that it has those keys and no more.

ghost use Rattle.std.specs.Prelude.{◌≡◌, ◌≤◌, ℕ, IfOk};
ghost use Rattle.serde_json.specs.View.{view, items_view};
ghost use Rattle.forms.specs.Reading.{Gives, greatest_byte, greatest_word, text_at, name_at, byte_at, word_at};
ghost use Rattle.forms.specs.Reading.{whole_at, texts_of, texts_at, has_keys, one_if_has, quota_of, quota_at};
ghost use Rattle.forms.specs.Reading.{optimism_at, place_of, open_form, join_form, post_form, deliver_form, flush_form};
ghost use Rattle.forms.specs.Reading.{checkpoint_form, kill_form, restart_form, notice_form, release_form, status_form};
ghost use Rattle.forms.specs.Reading.{step_of, step_of_line};

use crate::fault::LineFault;
use model::{
    AddressedStep, Letter, MAX_HELD_QUOTA, MAX_LETTERS_QUOTA, MAX_OPTIMISM, MAX_VOLATILE_QUOTA,
    Quota, Step, TenantName, TenantStep, Text, Texts, Unit,
};
use serde_json::Value;
use std::alloc::Global;

/// The step that a line is. The line has no line feed at its end, and may be of any length.
///
/// `Bad` comes exactly where it is no step. `NoMemory` comes where a growth was refused first, and
/// says nothing of the line.
pub fn read_step(alloc: Global, line: &[u8]) -> Result<Step, LineFault>
    ensures { Gives (λ s. s) result (step_of_line line.now) }
{
    match read_addressed(alloc, line) {
        Ok(step) => Ok(step.into_step()),
        Err(fault) => Err(fault),
    }
}

/// The same, apart: the name of its tenant, and the tenant's own step.
///
/// # Errors
///
/// Those of `read_step`.
#[tactic(auto, unfolding(crate::specs::Reading::step_of_line))]
pub fn read_addressed(alloc: Global, line: &[u8]) -> Result<AddressedStep, LineFault>
    ensures { Gives (λ s. s) result (step_of_line line.now) }
{
    match Value::from_slice(alloc, line) {
        Ok(value) => step(alloc, &value),
        Err(e) => {
            if e.is_memory() {
                Err(LineFault::NoMemory)
            } else {
                Err(LineFault::Bad)
            }
        }
    }
}

#[tactic(auto, unfolding(crate::specs::Reading::step_of))]
fn step(alloc: Global, value: &Value) -> Result<AddressedStep, LineFault>
    ensures { Gives (λ s. s) result (step_of (view value.now)) }
{
    let verb = text(value, "do")?;
    if verb == "open" {
        open(alloc, value)
    } else if verb == "join" {
        join(alloc, value)
    } else if verb == "post" {
        post(alloc, value)
    } else if verb == "deliver" {
        deliver(value)
    } else if verb == "flush" {
        flush(value)
    } else if verb == "checkpoint" {
        checkpoint(value)
    } else if verb == "kill" {
        kill(value)
    } else if verb == "restart" {
        restart(value)
    } else if verb == "notice" {
        notice(value)
    } else if verb == "release" {
        release(value)
    } else if verb == "status" {
        status(value)
    } else {
        Err(LineFault::Bad)
    }
}

#[tactic(auto, unfolding(crate::specs::Reading::open_form))]
fn open(alloc: Global, value: &Value) -> Result<AddressedStep, LineFault>
    ensures { Gives (λ s. s) result (open_form (view value.now)) }
{
    let tenant = name(value)?;
    let kinds = texts(alloc, value, "units")?;
    let quota = quota(value)?;
    let optimism = optimism(value)?;
    if count_is(
        value,
        3 + one_if(value, "quota") + one_if(value, "optimism"),
    ) {
        let own = TenantStep::Open {
            kinds,
            quota,
            optimism,
        };
        Ok(AddressedStep { tenant, own })
    } else {
        Err(LineFault::Bad)
    }
}

// The quota that an opening names, or the default.
#[tactic(auto, unfolding(crate::specs::Reading::quota_at))]
fn quota(value: &Value) -> Result<Quota, LineFault>
    ensures { Gives (λ q. q) result (quota_at (view value.now)) }
{
    match value.get("quota") {
        Some(inner) => quota_from(inner),
        None => Ok(Quota {
            volatile: MAX_VOLATILE_QUOTA,
            held: MAX_HELD_QUOTA,
            letters: MAX_LETTERS_QUOTA,
        }),
    }
}

#[tactic(auto, unfolding(crate::specs::Reading::quota_of))]
fn quota_from(value: &Value) -> Result<Quota, LineFault>
    ensures { Gives (λ q. q) result (quota_of (view value.now)) }
{
    let held = word(value, "held")?;
    let letters = word(value, "letters")?;
    let volatile = word(value, "volatile")?;
    if count_is(value, 3) {
        Ok(Quota {
            volatile,
            held,
            letters,
        })
    } else {
        Err(LineFault::Bad)
    }
}

// The degree of optimism that an opening names, or the default.
#[tactic(auto, unfolding(crate::specs::Reading::optimism_at))]
fn optimism(value: &Value) -> Result<u32, LineFault>
    ensures { Gives (λ n. n) result (optimism_at (view value.now)) }
{
    match value.get("optimism") {
        Some(_) => word(value, "optimism"),
        None => Ok(MAX_OPTIMISM),
    }
}

#[tactic(auto, unfolding(crate::specs::Reading::join_form))]
fn join(alloc: Global, value: &Value) -> Result<AddressedStep, LineFault>
    ensures { Gives (λ s. s) result (join_form (view value.now)) }
{
    let tenant = name(value)?;
    let kind = Text::of(alloc, text(value, "kind")?)?;
    if count_is(value, 3) {
        let own = TenantStep::Join { kind };
        Ok(AddressedStep { tenant, own })
    } else {
        Err(LineFault::Bad)
    }
}

#[tactic(auto, unfolding(crate::specs::Reading::post_form))]
fn post(alloc: Global, value: &Value) -> Result<AddressedStep, LineFault>
    ensures { Gives (λ s. s) result (post_form (view value.now)) }
{
    let tenant = name(value)?;
    let unit = Unit::new(byte(value, "unit")?);
    let number = word(value, "number")?;
    let text = Text::of(alloc, text(value, "text")?)?;
    if count_is(value, 5) {
        let own = TenantStep::Post { unit, number, text };
        Ok(AddressedStep { tenant, own })
    } else {
        Err(LineFault::Bad)
    }
}

#[tactic(auto, unfolding(crate::specs::Reading::deliver_form))]
fn deliver(value: &Value) -> Result<AddressedStep, LineFault>
    ensures { Gives (λ s. s) result (deliver_form (view value.now)) }
{
    let tenant = name(value)?;
    let letter = Letter::new(word(value, "letter")?);
    if count_is(value, 3) {
        let own = TenantStep::Deliver { letter };
        Ok(AddressedStep { tenant, own })
    } else {
        Err(LineFault::Bad)
    }
}

// The tenant and the unit of a step that names these alone.
#[tactic(auto, unfolding(crate::specs::Reading::place_of))]
fn place(value: &Value) -> Result<(TenantName, Unit), LineFault>
    ensures { Gives (λ p. p) result (place_of (view value.now)) }
{
    let tenant = name(value)?;
    let unit = Unit::new(byte(value, "unit")?);
    if count_is(value, 3) {
        Ok((tenant, unit))
    } else {
        Err(LineFault::Bad)
    }
}

fn flush(value: &Value) -> Result<AddressedStep, LineFault>
    ensures { Gives (λ s. s) result (flush_form (view value.now)) }
{
    let (tenant, unit) = place(value)?;
    let own = TenantStep::Flush { unit };
    Ok(AddressedStep { tenant, own })
}

fn checkpoint(value: &Value) -> Result<AddressedStep, LineFault>
    ensures { Gives (λ s. s) result (checkpoint_form (view value.now)) }
{
    let (tenant, unit) = place(value)?;
    let own = TenantStep::Checkpoint { unit };
    Ok(AddressedStep { tenant, own })
}

fn kill(value: &Value) -> Result<AddressedStep, LineFault>
    ensures { Gives (λ s. s) result (kill_form (view value.now)) }
{
    let (tenant, unit) = place(value)?;
    let own = TenantStep::Kill { unit };
    Ok(AddressedStep { tenant, own })
}

fn restart(value: &Value) -> Result<AddressedStep, LineFault>
    ensures { Gives (λ s. s) result (restart_form (view value.now)) }
{
    let (tenant, unit) = place(value)?;
    let own = TenantStep::Restart { unit };
    Ok(AddressedStep { tenant, own })
}

fn notice(value: &Value) -> Result<AddressedStep, LineFault>
    ensures { Gives (λ s. s) result (notice_form (view value.now)) }
{
    let (tenant, unit) = place(value)?;
    let own = TenantStep::Notice { unit };
    Ok(AddressedStep { tenant, own })
}

fn release(value: &Value) -> Result<AddressedStep, LineFault>
    ensures { Gives (λ s. s) result (release_form (view value.now)) }
{
    let (tenant, unit) = place(value)?;
    let own = TenantStep::Release { unit };
    Ok(AddressedStep { tenant, own })
}

fn status(value: &Value) -> Result<AddressedStep, LineFault>
    ensures { Gives (λ s. s) result (status_form (view value.now)) }
{
    let (tenant, unit) = place(value)?;
    let own = TenantStep::Status { unit };
    Ok(AddressedStep { tenant, own })
}

// ---- the values behind keys

fn text<'v>(value: &'v Value, key: &str) -> Result<&'v str, LineFault>
    ensures { Gives (λ t. t.now) result (text_at key.now (view value.now)) }
{
    value.get(key).and_then(Value::as_str).ok_or(LineFault::Bad)
}

fn name(value: &Value) -> Result<TenantName, LineFault>
    ensures { Gives (λ n. n) result (name_at (view value.now)) }
{
    TenantName::new(text(value, "tenant")?).ok_or(LineFault::Bad)
}

fn whole(value: &Value, key: &str, greatest: u64) -> Result<u64, LineFault>
    ensures within { IfOk result (λ n. n ≤ greatest) }
    ensures gives { Gives (λ n. n) result (whole_at greatest key.now (view value.now)) }
{
    match value.get(key).and_then(Value::as_u64) {
        Some(n) if n <= greatest => Ok(n),
        _ => Err(LineFault::Bad),
    }
}

fn byte(value: &Value, key: &str) -> Result<u8, LineFault>
    ensures { Gives (λ n. n) result (byte_at key.now (view value.now)) }
{
    Ok(whole(value, key, u64::from(u8::MAX))? as u8)
}

fn word(value: &Value, key: &str) -> Result<u32, LineFault>
    ensures { Gives (λ n. n) result (word_at key.now (view value.now)) }
{
    Ok(whole(value, key, u64::from(u32::MAX))? as u32)
}

fn texts(alloc: Global, value: &Value, key: &str) -> Result<Texts, LineFault>
    ensures { Gives (λ ts. ts) result (texts_at key.now (view value.now)) }
{
    match value.get(key).and_then(Value::as_array) {
        Some(items) => all_texts(alloc, items.as_slice()),
        None => Err(LineFault::Bad),
    }
}

fn all_texts(alloc: Global, items: &[Value]) -> Result<Texts, LineFault>
    ensures { Gives (λ ts. ts) result (texts_of (items_view items.now)) }
{
    let mut texts = Vec::new(alloc);
    for item in items {
        let text = item.as_str().ok_or(LineFault::Bad)?;
        texts.push(Text::of(alloc, text)?)?;
    }
    Ok(Texts::new(texts)?)
}

// ---- how many keys there are

fn count_is(value: &Value, count: usize) -> bool
    ensures { result ≡ has_keys count (view value.now) }
{
    match value.as_object() {
        Some(map) => map.len() == count,
        None => false,
    }
}

fn one_if(value: &Value, key: &str) -> usize
    ensures within { result ≤ 1 }
    ensures is { result ≡ one_if_has key.now (view value.now) }
{
    match value.get(key) {
        Some(_) => 1,
        None => 0,
    }
}
