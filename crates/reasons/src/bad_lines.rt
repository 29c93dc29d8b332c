//! What is wrong with a line that is no step.

use crate::keys::{self, GREATEST_WORD, Key, keys_of, wanted};
use model::{MAX_LINE_BYTES, NoMemory, TenantName};
use serde_json::Value;
use std::alloc::Global;

/// The first thing that is wrong with a line.
pub(crate) fn fault_of(alloc: Global, line: &[u8]) -> Result<String, NoMemory> {
    if line.len() > MAX_LINE_BYTES {
        return Ok(format!(in alloc; "it has more than {MAX_LINE_BYTES} bytes")?);
    }
    match Value::from_slice(alloc, line) {
        Ok(value) => fault_of_value(alloc, &value),
        Err(error) => Ok(format!(in alloc; "it is no JSON: {error}")?),
    }
}

fn fault_of_value(alloc: Global, value: &Value) -> Result<String, NoMemory> {
    if !value.is_object() {
        return Ok("it is no object".to_string(alloc)?);
    }
    let Some(word) = value.get("do") else {
        return Ok("key \"do\" is missing".to_string(alloc)?);
    };
    match word.as_str() {
        Some(step) => fault_of_step(alloc, step, value),
        None => Ok("key \"do\" is no text".to_string(alloc)?),
    }
}

fn fault_of_step(alloc: Global, step: &str, value: &Value) -> Result<String, NoMemory> {
    let Some(keys) = keys_of(step) else {
        return Ok(format!(in alloc; "there is no step {step:?}")?);
    };
    match unlisted(keys, value) {
        Some(name) => unlisted_fault(alloc, name, keys),
        None => fault_of_keys(alloc, keys, value),
    }
}

/// The first key that the form doesn't list.
fn unlisted<'a>(keys: &[Key], value: &'a Value) -> Option<&'a str> {
    let members = value.as_object()?;
    for name in members.keys() {
        if name.as_str() != "do" && !keys.iter().any(|key| key.name == name.as_str()) {
            return Some(name.as_str());
        }
    }
    None
}

fn unlisted_fault(alloc: Global, name: &str, keys: &[Key]) -> Result<String, NoMemory> {
    let mut fault = format!(in alloc; "key {name:?} is not one of do")?;
    for key in keys {
        fault.push_str(", ")?;
        fault.push_str(key.name)?;
    }
    Ok(fault)
}

/// What is wrong with the first key that is missing or has another value than it must.
fn fault_of_keys(alloc: Global, keys: &[Key], value: &Value) -> Result<String, NoMemory> {
    for key in keys {
        match value.get(key.name) {
            Some(found) => {
                if !is_wanted(alloc, key.value, found)? {
                    return wanted_fault(alloc, *key);
                }
            }
            None => {
                if !key.is_optional() {
                    return Ok(format!(in alloc; "key {:?} is missing", key.name)?);
                }
            }
        }
    }
    Ok("it is no step".to_string(alloc)?)
}

fn wanted_fault(alloc: Global, key: Key) -> Result<String, NoMemory> {
    Ok(format!(in alloc; "key {:?} is not {}", key.name, wanted(key.value))?)
}

/// Whether a key's value is what it must be.
fn is_wanted(alloc: Global, wanted: keys::Value, value: &Value) -> Result<bool, NoMemory> {
    Ok(match wanted {
        keys::Value::Name => is_name(value),
        keys::Value::Text => value.is_string(),
        keys::Value::Whole(most) => is_whole(value, most),
        keys::Value::Texts => are_texts(value),
        keys::Value::Quota => is_quota(value),
    })
}

fn is_name(value: &Value) -> bool {
    value
        .as_str()
        .is_some_and(|name| TenantName::new(name).is_some())
}

fn is_whole(value: &Value, most: u64) -> bool {
    value.as_u64().is_some_and(|number| number <= most)
}

fn are_texts(value: &Value) -> bool {
    match value.as_array() {
        Some(values) => values.iter().all(|value| value.is_string()),
        None => false,
    }
}

fn is_quota(value: &Value) -> bool {
    match value.as_object() {
        Some(members) => {
            members.len() == 3
                && ["held", "letters", "volatile"]
                    .iter()
                    .all(|name| is_limit(value, name))
        }
        None => false,
    }
}

fn is_limit(quota: &Value, name: &str) -> bool {
    match quota.get(name) {
        Some(value) => is_whole(value, GREATEST_WORD),
        None => false,
    }
}
