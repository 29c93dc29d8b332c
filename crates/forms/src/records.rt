//! The line that tells a record.

ghost use Rattle.std.specs.Prelude.{◌≡◌, ◌≢◌, All, IfOk, string_bytes};
ghost use Rattle.serde_json.specs.Data.{array};
ghost use Rattle.serde_json.specs.View.{view};
ghost use Rattle.forms.specs.Writing.{from_data, letter_data, mark_data, marks, record_data, record_text};

use model::{Letter, Mark, NoMemory, Record, Source};
use serde_json::{Value, json};
use std::alloc::{AllocError, Global};

/// The line that tells a record of the log, without the line feed at its end. It has no line feed
/// within. The only error is want of memory.
pub fn write_record(alloc: Global, logged: &Record) -> Result<String, NoMemory>
    ensures text { IfOk result (λ s. string_bytes s ≡ record_text logged.now) }
    ensures one_line { IfOk result (λ s. All (λ x. x ≢ 10) (string_bytes s)) }
{
    let value = data(alloc, logged)?;
    Ok(value.to_string(alloc)?)
}

// The value of a record.
fn data(alloc: Global, logged: &Record) -> Result<Value, AllocError>
    ensures { IfOk result (λ v. view v ≡ record_data logged.now) }
{
    let from = source(alloc, logged.source)?;
    let letter = letter(logged.letter);
    let vector = vector(alloc, logged.vector.as_slice())?;
    json!(in alloc; {
        "from": from,
        "letter": letter,
        "mark": [logged.mark.incarnation, logged.mark.index],
        "number": logged.number,
        "tenant": logged.tenant.as_str(),
        "text": logged.text.as_str(),
        "unit": logged.unit.number(),
        "vector": vector
    })
}

fn source(alloc: Global, source: Source) -> Result<Value, AllocError>
    ensures { IfOk result (λ v. view v ≡ from_data source) }
{
    match source {
        Source::Outside => json!(in alloc; "outside"),
        Source::Unit(unit) => Ok(Value::from(unit.number())),
    }
}

fn letter(letter: Option<Letter>) -> Value
    ensures { view result ≡ letter_data letter }
{
    match letter {
        Some(letter) => Value::from(letter.number()),
        None => Value::Null,
    }
}

fn mark(alloc: Global, mark: Mark) -> Result<Value, AllocError>
    ensures { IfOk result (λ v. view v ≡ mark_data mark) }
{
    json!(in alloc; [mark.incarnation, mark.index])
}

fn vector(alloc: Global, vector: &[Mark]) -> Result<Value, AllocError>
    ensures { IfOk result (λ v. view v ≡ array (marks vector.now)) }
{
    let mut list = Vec::new(alloc);
    for at in vector {
        list.push(mark(alloc, *at)?)?;
    }
    Ok(Value::Array(list))
}
