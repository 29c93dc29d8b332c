//! The step of a line, token by token.

ghost use Rattle.std.specs.Prelude.{◌≡◌, ◌<◌, ℕ, ◌∷◌, codes, length, Some, None, Err, IfOk, IfSome, IsTrue, IsUtf8};
ghost use Rattle.std.specs.Prelude.{MatchBool, MatchOption, OnOk, slice_index, ◌==◌};
ghost use Rattle.json.specs.Json as grammar;
ghost use Rattle.json.specs.Lex.{tokens};
ghost use Rattle.json.specs.Token.Token.{begin_object};
ghost use Rattle.json.specs.Word.{is_space as is_space_of};
ghost use Rattle.serde_json.specs.Data.{Data, unsigned, number as of_number, string, object as object_data, put};
ghost use Rattle.serde_json.specs.Data.{no_members};
ghost use Rattle.serde_json.specs.Read.{number_of, of_json, of_members, converted};
ghost use Rattle.forms.specs.Reading.{Gives, step_of, step_of_line};
ghost use Rattle.forms.specs.declared.fault.LineFault as LineFault;
ghost use Rattle.quick_forms.specs.Seen.{seen_members, read_tokens, step_of_tokens, whole_data, post_data};
ghost use Rattle.quick_forms.specs.Seen.{deliver_data, join_data, place_data};

use crate::shortest::{MOST_BYTES, VERB, delivery_line, place_line, post_parts};
use fast_float::Numeral;
use forms::LineFault;
use json::{Invalid, Reader, Scratch, Token};
use model::{AddressedStep, Letter, MAX_INDEX, NoMemory, TenantName, TenantStep, Text, Unit};
use std::alloc::Global;

/// From how many bytes on many are looked at together. Of fewer the standard library tells as fast, with less around
/// it.
const FEW_BYTES: usize = 64;

/// The last value of each key so far.
#[derive(Clone, Copy, Drop)]
struct Seen<'a> {
    verb: Option<&'a str>,
    kind: Option<&'a str>,
    letter: Option<u64>,
    number: Option<u64>,
    tenant: Option<&'a str>,
    text: Option<&'a str>,
    unit: Option<u64>,
}

/// The step that a line is, apart, as `forms::read_addressed` reads it. The scratch is kept from line to line.
///
/// # Errors
///
/// `Bad` exactly where the line is no step. `NoMemory` where a growth was refused first, and says nothing of the line.
pub fn read_addressed(
    alloc: Global,
    scratch: &mut Scratch,
    line: &[u8],
) -> Result<AddressedStep, LineFault>
    ensures { Gives (λ s. s) result (step_of_line line.now) }
{
    let Some(text) = text_of(line) else {
        return Err(LineFault::Bad);
    };
    if text.len() <= MOST_BYTES {
        let shortest = match text.as_bytes().get(VERB) {
            Some(b'd') => delivery_line(text),
            Some(b'p') => match post_parts(text) {
                Some((number, tenant, text, unit)) => posted(alloc, number, tenant, text, unit)?,
                None => None,
            },
            _ => place_line(text),
        };
        if let Some(step) = shortest {
            return Ok(step);
        }
    }
    if begins_no_object(text) {
        return Err(LineFault::Bad);
    }
    let mut reader = Reader::new(text, scratch)?;
    match quick(alloc, &mut reader) {
        Ok(Some(step)) => Ok(step),
        Ok(None) => forms::read_addressed(alloc, line),
        Err(fault) => Err(fault),
    }
}

/// The line as text, if it is one.
fn text_of(line: &[u8]) -> Option<&str>
    ensures { MatchOption result (¬ (IsUtf8 line.now)) (λ text. (text.now ≡ line.now) × IsUtf8 line.now) }
{
    if line.len() < FEW_BYTES {
        str::from_utf8(line).ok()
    } else {
        simdutf8::compat::from_utf8(line).ok()
    }
}

/// Whether the text begins with a byte that is neither space nor the brace that begins an object. It is no step then,
/// and no token of it need be made.
fn begins_no_object(text: &str) -> bool
    ensures { IsTrue result → step_of_tokens (tokens text.now) ≡ None }
{
    match text.as_bytes().first() {
        Some(byte) => !is_space(*byte) && *byte != b'{',
        None => false,
    }
}

fn is_space(byte: u8) -> bool
    ensures { result ≡ is_space_of byte }
{
    byte == b' ' || byte == b'\t' || byte == b'\n' || byte == b'\r'
}

/// The step of the tokens, where they are a quick form. `Bad` where they are no object, or one without a verb.
fn quick(alloc: Global, reader: &mut Reader<'_>) -> Result<Option<AddressedStep>, LineFault>
    ensures some { IfOk result (λ o. IfSome o (λ s. step_of_tokens reader.old ≡ Some s)) }
    ensures bad { result ≡ Err LineFault.Bad → step_of_tokens reader.old ≡ None }
{
    if begins_object(reader) {
        step_within(alloc, reader)
    } else {
        Err(LineFault::Bad)
    }
}

/// The same, behind the brace that begins an object.
fn step_within(alloc: Global, reader: &mut Reader<'_>) -> Result<Option<AddressedStep>, LineFault>
    ensures some { IfOk result (λ o. IfSome o (λ s. step_of_tokens (begin_object ∷ reader.old) ≡ Some s)) }
    ensures bad { result ≡ Err LineFault.Bad → step_of_tokens (begin_object ∷ reader.old) ≡ None }
{
    match object(reader) {
        Ok(seen) => step(alloc, seen),
        Err(_) => Ok(None),
    }
}

/// Takes the brace that begins an object. What begins with none is no step.
fn begins_object(reader: &mut Reader<'_>) -> bool
    ensures { MatchBool result (reader.old ≡ begin_object ∷ reader.new) (step_of_tokens reader.old ≡ None) }
{
    match reader.next() {
        Some(Token::BeginObject) => true,
        Some(Token::BeginArray) => false,
        Some(Token::EndArray) => false,
        Some(Token::EndObject) => false,
        Some(Token::Key(_)) => false,
        Some(Token::String(_)) => false,
        Some(Token::Number(_)) => false,
        Some(Token::Bool(_)) => false,
        Some(Token::Null) => false,
        Some(Token::Bad) => false,
        None => false,
    }
}

/// The members of an object that is all that is left, behind its brace.
fn object<'a>(reader: &mut Reader<'a>) -> Result<Seen<'a>, Invalid>
    ensures { IfOk result (λ s. read_tokens (begin_object ∷ reader.old) ≡ Some (object_data (seen_members s))) }
{
    let seen = members(reader)?;
    match reader.next() {
        None => Ok(seen),
        Some(_) => Err(Invalid),
    }
}

fn members<'a>(reader: &mut Reader<'a>) -> Result<Seen<'a>, Invalid>
    ensures { IfOk result (λ s. (m : ℕ)
        → converted (λ ms. of_members ms no_members)
        (grammar.members (grammar.value m) (length reader.old) reader.old)
        ≡ Some (seen_members s, reader.new)) }
{
    let mut seen = Seen {
        verb: None,
        kind: None,
        letter: None,
        number: None,
        tenant: None,
        text: None,
        unit: None,
    };
    'members: while let Some(key) = reader.next_key()? {
        seen = member(reader, seen, key)?;
    }
    Ok(seen)
}

#[inline(always)]
fn member<'a>(reader: &mut Reader<'a>, seen: Seen<'a>, key: &str) -> Result<Seen<'a>, Invalid>
    ensures ok { IfOk result (λ s. (d : Data)
        × ((m : ℕ) → converted of_json (grammar.value m reader.old) ≡ Some (d, reader.new))
        × (seen_members s ≡ put key.now d (seen_members seen.entry))) }
    ensures shorter { OnOk result (length reader.new < length reader.old) }
{
    match reader.next() {
        Some(Token::String(text)) => {
            let seen = with_text(seen, key, text)?;
            Ok(seen)
        }
        Some(Token::Number(text)) => {
            let n = whole(text)?;
            let seen = with_number(seen, key, n)?;
            Ok(seen)
        }
        _ => Err(Invalid),
    }
}

#[inline(always)]
fn whole(text: &str) -> Result<u64, Invalid>
    ensures { IfOk result (λ n. number_of text.now ≡ Some (unsigned n)) }
{
    let bytes = text.as_bytes();
    if has_minus(bytes) {
        return Err(Invalid);
    }
    match Numeral::scan(bytes).to_u64() {
        Some(n) => Ok(n),
        None => Err(Invalid),
    }
}

#[inline(always)]
fn has_minus(bytes: &[u8]) -> bool
    ensures { result ≡ (slice_index bytes.now 0 == 45) }
{
    !bytes.is_empty() && bytes[0] == b'-'
}

#[inline(always)]
fn with_text<'a>(seen: Seen<'a>, key: &str, text: &'a str) -> Result<Seen<'a>, Invalid>
    ensures { IfOk result (λ s. seen_members s ≡ put key.now (string text.now) (seen_members seen.entry)) }
{
    if key == "do" {
        Ok(Seen {
            verb: Some(text),
            ..seen
        })
    } else if key == "tenant" {
        Ok(Seen {
            tenant: Some(text),
            ..seen
        })
    } else if key == "text" {
        Ok(Seen {
            text: Some(text),
            ..seen
        })
    } else if key == "kind" {
        Ok(Seen {
            kind: Some(text),
            ..seen
        })
    } else {
        Err(Invalid)
    }
}

#[inline(always)]
fn with_number<'a>(seen: Seen<'a>, key: &str, n: u64) -> Result<Seen<'a>, Invalid>
    ensures { IfOk result (λ s. seen_members s ≡ put key.now (whole_data n) (seen_members seen.entry)) }
{
    if key == "unit" {
        Ok(Seen {
            unit: Some(n),
            ..seen
        })
    } else if key == "number" {
        Ok(Seen {
            number: Some(n),
            ..seen
        })
    } else if key == "letter" {
        Ok(Seen {
            letter: Some(n),
            ..seen
        })
    } else {
        Err(Invalid)
    }
}

/// The step of these members, where they are of a quick form. `Bad` where the verb is missing.
fn step(alloc: Global, seen: Seen<'_>) -> Result<Option<AddressedStep>, LineFault>
    ensures some { IfOk result (λ o. IfSome o (λ s. step_of (object_data (seen_members seen.entry)) ≡ Some s)) }
    ensures bad { result ≡ Err LineFault.Bad → step_of (object_data (seen_members seen.entry)) ≡ None }
{
    let Seen {
        verb,
        kind,
        letter,
        number,
        tenant,
        text,
        unit,
    } = seen;
    match (verb, kind, letter, number, tenant, text, unit) {
        (None, ..) => Err(LineFault::Bad),
        (Some(verb), None, None, Some(number), Some(tenant), Some(text), Some(unit)) => {
            Ok(post(alloc, verb, number, tenant, text, unit)?)
        }
        (Some(verb), None, Some(letter), None, Some(tenant), None, None) => {
            Ok(deliver(verb, letter, tenant))
        }
        (Some(verb), Some(kind), None, None, Some(tenant), None, None) => {
            Ok(join(alloc, verb, kind, tenant)?)
        }
        (Some(verb), None, None, None, Some(tenant), None, Some(unit)) => {
            Ok(place(verb, tenant, unit))
        }
        _ => Ok(None),
    }
}

fn post(
    alloc: Global,
    verb: &str,
    number: u64,
    tenant: &str,
    text: &str,
    unit: u64,
) -> Result<Option<AddressedStep>, NoMemory>
    ensures { IfOk result (λ o. IfSome o
        (λ s. step_of (post_data verb.now number tenant.now text.now unit) ≡ Some s)) }
{
    if verb != "post" {
        return Ok(None);
    }
    posted(alloc, number, tenant, text, unit)
}

/// The step of a post of these parts.
#[tactic(auto, unfolding(forms::specs::Reading::step_of, forms::specs::Reading::post_form))]
pub(crate) fn posted(
    alloc: Global,
    number: u64,
    tenant: &str,
    text: &str,
    unit: u64,
) -> Result<Option<AddressedStep>, NoMemory>
    ensures { IfOk result (λ o. IfSome o
        (λ s. step_of (post_data (codes "post") number tenant.now text.now unit) ≡ Some s)) }
{
    if number > u64::from(MAX_INDEX) || unit > 255 {
        return Ok(None);
    }
    let Some(tenant) = TenantName::new(tenant) else {
        return Ok(None);
    };
    let text = Text::of(alloc, text)?;
    let own = TenantStep::Post {
        unit: Unit::new(unit as u8),
        number: number as u32,
        text,
    };
    Ok(Some(AddressedStep { tenant, own }))
}

fn deliver(verb: &str, letter: u64, tenant: &str) -> Option<AddressedStep>
    ensures { IfSome result (λ s. step_of (deliver_data verb.now letter tenant.now) ≡ Some s) }
{
    if verb != "deliver" {
        return None;
    }
    delivery(letter, tenant)
}

/// The step of a delivery of these parts.
#[tactic(auto, unfolding(forms::specs::Reading::step_of, forms::specs::Reading::deliver_form))]
pub(crate) fn delivery(letter: u64, tenant: &str) -> Option<AddressedStep>
    ensures { IfSome result (λ s. step_of (deliver_data (codes "deliver") letter tenant.now) ≡ Some s) }
{
    if letter > u64::from(MAX_INDEX) {
        return None;
    }
    let tenant = TenantName::new(tenant)?;
    let own = TenantStep::Deliver {
        letter: Letter::new(letter as u32),
    };
    Some(AddressedStep { tenant, own })
}

#[tactic(auto, unfolding(forms::specs::Reading::step_of, forms::specs::Reading::join_form))]
fn join(
    alloc: Global,
    verb: &str,
    kind: &str,
    tenant: &str,
) -> Result<Option<AddressedStep>, NoMemory>
    ensures { IfOk result (λ o. IfSome o
        (λ s. step_of (join_data verb.now kind.now tenant.now) ≡ Some s)) }
{
    if verb != "join" {
        return Ok(None);
    }
    let Some(tenant) = TenantName::new(tenant) else {
        return Ok(None);
    };
    let kind = Text::of(alloc, kind)?;
    let own = TenantStep::Join { kind };
    Ok(Some(AddressedStep { tenant, own }))
}

#[tactic(auto, unfolding(forms::specs::Reading::step_of, forms::specs::Reading::place_of))]
pub(crate) fn place(verb: &str, tenant: &str, unit: u64) -> Option<AddressedStep>
    ensures { IfSome result (λ s. step_of (place_data verb.now tenant.now unit) ≡ Some s) }
{
    if unit > 255 {
        return None;
    }
    let tenant = TenantName::new(tenant)?;
    let unit = Unit::new(unit as u8);
    if verb == "flush" {
        let own = TenantStep::Flush { unit };
        Some(AddressedStep { tenant, own })
    } else if verb == "release" {
        let own = TenantStep::Release { unit };
        Some(AddressedStep { tenant, own })
    } else if verb == "status" {
        let own = TenantStep::Status { unit };
        Some(AddressedStep { tenant, own })
    } else if verb == "checkpoint" {
        let own = TenantStep::Checkpoint { unit };
        Some(AddressedStep { tenant, own })
    } else if verb == "notice" {
        let own = TenantStep::Notice { unit };
        Some(AddressedStep { tenant, own })
    } else if verb == "kill" {
        let own = TenantStep::Kill { unit };
        Some(AddressedStep { tenant, own })
    } else if verb == "restart" {
        let own = TenantStep::Restart { unit };
        Some(AddressedStep { tenant, own })
    } else {
        None
    }
}
