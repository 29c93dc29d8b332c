//! The earlier versions of the form, in which each letter stood by itself. In the first one it had its number, also
//! where its content was forgotten.
//!
//! A host of them is what an older program went on from. No clause says of which host these bytes are: that is tested.

use crate::entries::Tenants;
use crate::load_fault::LoadFault;
use crate::log::decode_log;
use crate::members::decode_members;
use crate::outlets::decode_outlet;
use crate::sealing::{check_about, check_digest, head_version};
use book::Host;
use codec::{Coded, DecodeFault, Input, Portable, decode_list};
use depvector::SharedVector;
use incarnation::StartTable;
use indexmap::IndexMap;
use model::{Quota, TenantName, Text, Unit};
use shared_log::MemoryStore;
use std::alloc::Global;
use tenant::Tenant;
use unit_steps::{Content, SentLetter, SentLetters};

/// The earlier versions of the form.
#[derive(Clone, Copy)]
enum Form {
    First,
    Second,
}

/// Which of them has this version.
fn form_of(version: u8) -> Option<Form> {
    match version {
        1 => Some(Form::First),
        2 => Some(Form::Second),
        _ => None,
    }
}

/// The host of bytes that a program of an earlier form saved, with its records in memory.
///
/// # Errors
///
/// As `load`; `AnotherVersion` where the bytes are of no earlier form.
pub fn load_earlier<H: Portable>(
    alloc: Global,
    handler: H,
    about: &str,
    bytes: &[u8],
) -> Result<Host<H, MemoryStore>, LoadFault> {
    let mut input = Input::new(bytes);
    let Some(form) = form_of(head_version(&mut input)?) else {
        return Err(LoadFault::AnotherVersion);
    };
    check_digest(alloc, &mut input)?;
    check_about(alloc, &mut input, about)?;
    let tenants = decode_tenants(&handler, alloc, &mut input, form)?;
    let log = decode_log(alloc, &mut input)?;
    if input.len() != 0 {
        return Err(LoadFault::Damaged);
    }
    Ok(Host::of(alloc, handler, log, tenants))
}

/// Takes the bytes of the tenants with their names off the input.
fn decode_tenants<H: Portable>(
    handler: &H,
    alloc: Global,
    input: &mut Input,
    form: Form,
) -> Result<Tenants<H>, DecodeFault> {
    let mut tenants = IndexMap::new(alloc);
    for _ in 0..usize::decode(alloc, input)? {
        decode_onto(handler, alloc, input, form, &mut tenants)?;
    }
    Ok(tenants)
}

/// Takes the bytes of one more tenant with its name off the input.
fn decode_onto<H: Portable>(
    handler: &H,
    alloc: Global,
    input: &mut Input,
    form: Form,
    tenants: &mut Tenants<H>,
) -> Result<(), DecodeFault> {
    let name = TenantName::decode(alloc, input)?;
    if tenants.contains_key(&name) {
        return Err(DecodeFault::Damaged);
    }
    let tenant = decode_tenant(handler, alloc, input, form)?;
    match tenants.insert(name, tenant) {
        Ok(_) => Ok(()),
        Err(_) => Err(DecodeFault::NoMemory),
    }
}

/// Takes the bytes of a tenant off the input.
fn decode_tenant<H: Portable>(
    handler: &H,
    alloc: Global,
    input: &mut Input,
    form: Form,
) -> Result<Tenant<H>, DecodeFault> {
    let quota = Quota::decode(alloc, input)?;
    let optimism = u32::decode(alloc, input)?;
    let table = StartTable::decode(alloc, input)?;
    let members = decode_members(handler, alloc, input)?;
    let stable_lengths = decode_list::<u64>(alloc, input)?;
    let frontiers = decode_list::<u64>(alloc, input)?;
    let outlet = decode_outlet(alloc, input)?;
    let letters = decode_letters(alloc, input, form)?;
    Ok(Tenant {
        quota,
        optimism,
        table,
        members,
        stable_lengths,
        frontiers,
        outlet,
        letters,
    })
}

/// Takes the bytes of letters off the input.
fn decode_letters(
    alloc: Global,
    input: &mut Input,
    form: Form,
) -> Result<SentLetters, DecodeFault> {
    let mut letters = SentLetters::new(alloc);
    for _ in 0..usize::decode(alloc, input)? {
        let letter = decode_letter(alloc, input, form)?;
        letters.push(letter)?;
    }
    Ok(letters)
}

/// Takes the bytes of a letter off the input: sender, receiver, and content where it is there.
fn decode_letter(alloc: Global, input: &mut Input, form: Form) -> Result<SentLetter, DecodeFault> {
    let source = Unit::decode(alloc, input)?;
    let receiver = Unit::decode(alloc, input)?;
    let content = match form {
        Form::First => decode_numbered(alloc, input)?,
        Form::Second => Option::<Content>::decode(alloc, input)?,
    };
    Ok(SentLetter {
        source,
        receiver,
        content,
    })
}

/// Takes the bytes of a number off the input, and of a text and a vector where they are there.
fn decode_numbered(alloc: Global, input: &mut Input) -> Result<Option<Content>, DecodeFault> {
    let number = u64::decode(alloc, input)?;
    match input.byte()? {
        0 => Ok(None),
        1 => Ok(Some(decode_content(alloc, input, number)?)),
        _ => Err(DecodeFault::Damaged),
    }
}

/// Takes the bytes of a text and a vector off the input, of the letter of this number.
fn decode_content(alloc: Global, input: &mut Input, number: u64) -> Result<Content, DecodeFault> {
    let text = Text::decode(alloc, input)?;
    let vector = SharedVector::decode(alloc, input)?;
    Ok(Content::new(alloc, number, text, vector)?)
}
