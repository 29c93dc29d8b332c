//! The line that tells a reply.

ghost use Rattle.std.specs.Prelude.{◌≡◌, ◌≢◌, All, IfOk, string_bytes};
ghost use Rattle.serde_json.specs.Data.{array};
ghost use Rattle.serde_json.specs.Read.{read};
ghost use Rattle.serde_json.specs.View.{view};
ghost use Rattle.forms.specs.Writing.{IsStatus, wholes, texts, accepted_data, checkpointed_data, restarted_data};
ghost use Rattle.forms.specs.Writing.{noticed_data, released_data, reply_data, reply_text};

use model::{Letter, Mark, NoMemory, Reply, Start, Text};
use serde_json::{Value, json};
use std::alloc::{AllocError, Global};

/// The line that tells a reply, without the line feed at its end. It reads back as the reply's
/// value, and has no line feed within. The only error is want of memory.
pub fn write_reply(alloc: Global, reply: &Reply) -> Result<String, NoMemory>
    ensures text { IfOk result (λ s. string_bytes s ≡ reply_text reply.now) }
    ensures reads_back { IfOk result (λ s. read (string_bytes s) ≡ Some (reply_data reply.now)) }
    ensures one_line { IfOk result (λ s. All (λ x. x ≢ 10) (string_bytes s)) }
{
    let value = data(alloc, reply)?;
    Ok(value.to_string(alloc)?)
}

// The value of a reply.
fn data(alloc: Global, reply: &Reply) -> Result<Value, AllocError>
    ensures { IfOk result (λ v. view v ≡ reply_data reply.now) }
{
    match reply {
        Reply::Opened { units } => json!(in alloc; {"ok": "open", "units": *units}),
        Reply::Joined { unit } => json!(in alloc; {"ok": "join", "unit": unit.number()}),
        Reply::Accepted { at, held, letters } => accepted(alloc, *at, *held, letters.as_slice()),
        Reply::Flushed { count } => json!(in alloc; {"count": *count, "ok": "flush"}),
        Reply::Checkpointed { at } => checkpointed(alloc, *at),
        Reply::Killed { lost } => json!(in alloc; {"lost": *lost, "ok": "kill"}),
        Reply::Restarted { row } => restarted(alloc, *row),
        Reply::Noticed { row } => noticed(alloc, *row),
        Reply::Released { outputs } => released(alloc, outputs.as_slice()),
        Reply::Status { .. } => status(alloc, reply),
        Reply::Stopped { count, refusal } => {
            json!(in alloc; {"count": *count, "no": refusal.name()})
        }
        Reply::Refused { refusal } => json!(in alloc; {"no": refusal.name()}),
    }
}

fn accepted(alloc: Global, at: Mark, held: u64, letters: &[Letter]) -> Result<Value, AllocError>
    ensures { IfOk result (λ v. view v ≡ accepted_data at held letters.now) }
{
    let letters = numbers(alloc, letters)?;
    json!(in alloc; {
        "at": [at.incarnation, at.index],
        "held": held,
        "letters": letters,
        "ok": "accepted"
    })
}

fn checkpointed(alloc: Global, at: Mark) -> Result<Value, AllocError>
    ensures { IfOk result (λ v. view v ≡ checkpointed_data at) }
{
    json!(in alloc; {"at": [at.incarnation, at.index], "ok": "checkpoint"})
}

fn restarted(alloc: Global, row: Start) -> Result<Value, AllocError>
    ensures { IfOk result (λ v. view v ≡ restarted_data row) }
{
    json!(in alloc; {"ok": "restart", "row": [row.incarnation, row.index]})
}

fn noticed(alloc: Global, row: Option<Start>) -> Result<Value, AllocError>
    ensures { IfOk result (λ v. view v ≡ noticed_data row) }
{
    match row {
        Some(row) => json!(in alloc; {"ok": "notice", "row": [row.incarnation, row.index]}),
        None => json!(in alloc; {"ok": "notice", "row": null}),
    }
}

fn released(alloc: Global, outputs: &[Text]) -> Result<Value, AllocError>
    ensures { IfOk result (λ v. view v ≡ released_data outputs.now) }
{
    let outputs = strings(alloc, outputs)?;
    json!(in alloc; {"ok": "released", "outputs": outputs})
}

// Takes the whole reply, whose fields are many.
fn status(alloc: Global, reply: &Reply) -> Result<Value, AllocError>
    requires { IsStatus reply.now }
    ensures { IfOk result (λ v. view v ≡ reply_data reply.now) }
{
    let Reply::Status {
        at,
        held,
        known,
        outside,
        released,
        rows,
        stable,
        up,
        volatile,
    } = reply
    else {
        unreachable!()
    };
    json!(in alloc; {
        "at": [at.incarnation, at.index],
        "held": *held,
        "known": *known,
        "ok": "status",
        "outside": *outside,
        "released": *released,
        "rows": *rows,
        "stable": *stable,
        "up": *up,
        "volatile": *volatile
    })
}

fn numbers(alloc: Global, letters: &[Letter]) -> Result<Value, AllocError>
    ensures { IfOk result (λ v. view v ≡ array (wholes letters.now)) }
{
    let mut list = Vec::new(alloc);
    for letter in letters {
        list.push(Value::from(letter.number()))?;
    }
    Ok(Value::Array(list))
}

fn strings(alloc: Global, outputs: &[Text]) -> Result<Value, AllocError>
    ensures { IfOk result (λ v. view v ≡ array (texts outputs.now)) }
{
    let mut list = Vec::new(alloc);
    for text in outputs {
        list.push(Value::String(String::from_str(alloc, text.as_str())?))?;
    }
    Ok(Value::Array(list))
}
