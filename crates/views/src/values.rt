//! Marks, units and steps as JSON has them.

use diagram::Held;
use model::{Mark, NoMemory, Unit};
use reasons::Remedy;
use serde_json::{Value, json};
use std::alloc::Global;

/// A mark as in a reply.
pub(crate) fn mark_value(alloc: Global, mark: Mark) -> Result<Value, NoMemory> {
    let value = json!(in alloc; [mark.incarnation, mark.index])?;
    Ok(value)
}

/// What an output waits for, unit by unit.
pub(crate) fn awaited_value(alloc: Global, held: &Held) -> Result<Value, NoMemory> {
    let mut values = Vec::new(alloc);
    for awaited in &held.awaited {
        let at = mark_value(alloc, awaited.mark)?;
        let unit = awaited.unit.number();
        let value = json!(in alloc; {
            "at": at,
            "lost": awaited.is_lost,
            "unit": unit,
        })?;
        values.push(value)?;
    }
    Ok(Value::Array(values))
}

/// Steps as lines have them.
pub(crate) fn steps_value(
    alloc: Global,
    tenant: &str,
    steps: &[Remedy],
) -> Result<Value, NoMemory> {
    let mut values = Vec::new(alloc);
    for step in steps {
        let unit = step.unit.number();
        let value = json!(in alloc; {
            "do": step.action.word(),
            "tenant": tenant,
            "unit": unit,
        })?;
        values.push(value)?;
    }
    Ok(Value::Array(values))
}

/// Numbers of units.
pub(crate) fn units_value(alloc: Global, units: &[Unit]) -> Result<Value, NoMemory> {
    let mut values = Vec::new(alloc);
    for unit in units {
        let value = json!(in alloc; unit.number())?;
        values.push(value)?;
    }
    Ok(Value::Array(values))
}
