//! The line that tells an outcome.

ghost use Rattle.std.specs.Prelude.{◌≡◌, IfOk, string_bytes};
ghost use Rattle.serde_json.specs.View.{view};
ghost use Rattle.audit.specs.Line.{flaw_data, outcome_data, outcome_text};

use crate::verdict::Verdict;
use model::{Flaw, NoMemory, TenantName, Unit};
use serde_json::{Value, json};
use std::alloc::{AllocError, Global};

/// The line that tells the outcome of a tenant's audit, without the line feed at its end. The only
/// error is want of memory.
pub fn audit_line(
    alloc: Global,
    tenant: &TenantName,
    outcome: &Result<Verdict, Flaw>,
) -> Result<String, NoMemory>
    ensures { IfOk result (λ s. string_bytes s ≡ outcome_text tenant.now outcome.now) }
{
    let value = data(alloc, tenant.as_str(), outcome)?;
    Ok(value.to_string(alloc)?)
}

fn data(alloc: Global, tenant: &str, outcome: &Result<Verdict, Flaw>) -> Result<Value, AllocError>
    ensures { IfOk result (λ v. view v ≡ outcome_data tenant.now outcome.now) }
{
    match outcome {
        Ok(_) => json!(in alloc; {"audit": "ok", "tenant": tenant}),
        Err(Flaw::NoUnit(unit)) => flaw(alloc, tenant, "no-unit", *unit),
        Err(Flaw::NothingToReceive(unit)) => flaw(alloc, tenant, "nothing-to-receive", *unit),
        Err(Flaw::OutputsDiffer(unit)) => flaw(alloc, tenant, "outputs-differ", *unit),
        Err(Flaw::NoMemory) => json!(in alloc; {"audit": "memory", "tenant": tenant}),
    }
}

fn flaw(alloc: Global, tenant: &str, name: &str, unit: Unit) -> Result<Value, AllocError>
    ensures { IfOk result (λ v. view v ≡ flaw_data tenant.now name.now unit) }
{
    json!(in alloc; {"audit": "no", "flaw": name, "tenant": tenant, "unit": unit.number()})
}
