//! The line that tells a reply, written after what a buffer holds: the words of each reply as they stand in its text,
//! and its numbers and names between them.

ghost use Rattle.std.specs.Prelude.{◌≡◌, ◌<◌, ◌++◌, IfOk, OnOk, codes, decimal, false, Some};
ghost use Rattle.json.specs.Print.{quoted as quoted_text};
ghost use Rattle.serde_json.specs.Written.{items_text};
ghost use Rattle.forms.specs.Writing.{wholes, texts as texts_data, reply_text};
ghost use Rattle.quick_forms.specs.Words.{up_text};
ghost use Rattle.model.specs.declared.replies.Reply.TheVariants.{
  Accepted,
  Checkpointed,
  Restarted,
  Noticed,
  Released,
  Status,
  Stopped,
  Refused,
};

use itoa::Buffer;
use json::Writer;
use model::{Letter, Mark, NoMemory, Refusal, Reply, Start, Text};
use std::mem;

/// Puts the line that tells a reply, without a line feed, behind what a buffer holds: the text that
/// `forms::write_reply` gives. The only error is want of memory; a beginning of the line may stand there then.
#[tactic(auto, using(crate::proofs::Written::opened_text, crate::proofs::Written::joined_text, crate::proofs::Written::flushed_text, crate::proofs::Written::killed_text))]
pub fn write_reply(out: &mut Vec<u8>, reply: &Reply) -> Result<(), NoMemory>
    ensures { OnOk result (out.new.items ≡ out.old.items ++ reply_text reply.now) }
{
    match reply {
        Reply::Opened { units } => number_between(out, "{\"ok\":\"open\",\"units\":", *units, "}"),
        Reply::Joined { unit } => {
            let unit = u64::from(unit.number());
            number_between(out, "{\"ok\":\"join\",\"unit\":", unit, "}")
        }
        Reply::Accepted { at, held, letters } => accepted(out, *at, *held, letters.as_slice()),
        Reply::Flushed { count } => {
            number_between(out, "{\"count\":", *count, ",\"ok\":\"flush\"}")
        }
        Reply::Checkpointed { at } => checkpointed(out, *at),
        Reply::Killed { lost } => number_between(out, "{\"lost\":", *lost, ",\"ok\":\"kill\"}"),
        Reply::Restarted { row } => restarted(out, *row),
        Reply::Noticed { row } => noticed(out, *row),
        Reply::Released { outputs } => released(out, outputs.as_slice()),
        Reply::Status {
            at,
            held,
            known,
            outside,
            released,
            rows,
            stable,
            up,
            volatile,
        } => status(
            out, *at, *held, *known, *outside, *released, *rows, *stable, *up, *volatile,
        ),
        Reply::Stopped { count, refusal } => stopped(out, *count, *refusal),
        Reply::Refused { refusal } => refused(out, *refusal),
    }
}

fn checkpointed(out: &mut Vec<u8>, at: Mark) -> Result<(), NoMemory>
    ensures { OnOk result (out.new.items ≡ out.old.items ++ reply_text (Checkpointed at)) }
{
    mark_after(out, "{\"at\":[", at)?;
    words(out, "],\"ok\":\"checkpoint\"}")?;
    Ok(())
}

#[tactic(auto, using(crate::proofs::Written::restarted_text))]
fn restarted(out: &mut Vec<u8>, row: Start) -> Result<(), NoMemory>
    ensures { OnOk result (out.new.items ≡ out.old.items ++ reply_text (Restarted row)) }
{
    start_between(out, "{\"ok\":\"restart\",\"row\":[", row, "]}")
}

fn accepted(out: &mut Vec<u8>, at: Mark, held: u64, letters: &[Letter]) -> Result<(), NoMemory>
    ensures { OnOk result (out.new.items ≡ out.old.items ++ reply_text (Accepted at held letters.now)) }
{
    mark_after(out, "{\"at\":[", at)?;
    number_after(out, "],\"held\":", held)?;
    words(out, ",\"letters\":[")?;
    numbers(out, letters)?;
    words(out, ",\"ok\":\"accepted\"}")?;
    Ok(())
}

fn noticed_row(out: &mut Vec<u8>, row: Start) -> Result<(), NoMemory>
    ensures { OnOk result (out.new.items ≡ out.old.items ++ reply_text (Noticed (Some row))) }
{
    start_between(out, "{\"ok\":\"notice\",\"row\":[", row, "]}")
}

#[tactic(auto, using(crate::proofs::Written::noticed_none_text))]
fn noticed(out: &mut Vec<u8>, row: Option<Start>) -> Result<(), NoMemory>
    ensures { OnOk result (out.new.items ≡ out.old.items ++ reply_text (Noticed row)) }
{
    match row {
        Some(row) => noticed_row(out, row),
        None => words(out, "{\"ok\":\"notice\",\"row\":null}"),
    }
}

fn released(out: &mut Vec<u8>, outputs: &[Text]) -> Result<(), NoMemory>
    ensures { OnOk result (out.new.items ≡ out.old.items ++ reply_text (Released outputs.now)) }
{
    words(out, "{\"ok\":\"released\",\"outputs\":[")?;
    texts(out, outputs)?;
    words(out, "}")?;
    Ok(())
}

fn status(
    out: &mut Vec<u8>,
    at: Mark,
    held: u64,
    known: u64,
    outside: u64,
    released: u64,
    rows: u64,
    stable: u64,
    up: bool,
    volatile: u64,
) -> Result<(), NoMemory>
    ensures { OnOk result (out.new.items ≡ out.old.items
        ++ reply_text (Status up at held known outside released rows stable volatile)) }
{
    mark_after(out, "{\"at\":[", at)?;
    number_after(out, "],\"held\":", held)?;
    number_after(out, ",\"known\":", known)?;
    number_after(out, ",\"ok\":\"status\",\"outside\":", outside)?;
    number_after(out, ",\"released\":", released)?;
    number_after(out, ",\"rows\":", rows)?;
    number_after(out, ",\"stable\":", stable)?;
    words(out, up_words(up))?;
    number_between(out, ",\"volatile\":", volatile, "}")?;
    Ok(())
}

#[tactic(auto, unfolding(crate::specs::Words::up_text))]
fn up_words(up: bool) -> &'static str
    ensures { result.now ≡ up_text up }
{
    if up { ",\"up\":true" } else { ",\"up\":false" }
}

fn stopped(out: &mut Vec<u8>, count: u64, refusal: Refusal) -> Result<(), NoMemory>
    ensures { OnOk result (out.new.items ≡ out.old.items ++ reply_text (Stopped count refusal)) }
{
    number_after(out, "{\"count\":", count)?;
    words(out, ",\"no\":\"")?;
    words(out, refusal.name())?;
    words(out, "\"}")?;
    Ok(())
}

fn refused(out: &mut Vec<u8>, refusal: Refusal) -> Result<(), NoMemory>
    ensures { OnOk result (out.new.items ≡ out.old.items ++ reply_text (Refused refusal)) }
{
    words(out, "{\"no\":\"")?;
    words(out, refusal.name())?;
    words(out, "\"}")?;
    Ok(())
}

/// Numbers with commas between them, and the bracket that closes their list.
fn numbers(out: &mut Vec<u8>, letters: &[Letter]) -> Result<(), NoMemory>
    ensures { OnOk result (out.new.items ≡ out.old.items ++ items_text false (wholes letters.now)) }
{
    let mut later = false;
    for letter in letters {
        number_after(
            out,
            if later { "," } else { "" },
            u64::from(letter.number()),
        )?;
        later = true;
    }
    words(out, "]")
}

/// Texts in quotes with commas between them, and the bracket that closes their list.
fn texts(out: &mut Vec<u8>, texts: &[Text]) -> Result<(), NoMemory>
    ensures { OnOk result (out.new.items ≡ out.old.items ++ items_text false (texts_data texts.now)) }
{
    let mut later = false;
    for text in texts {
        words(out, if later { "," } else { "" })?;
        quoted(out, text.as_str())?;
        later = true;
    }
    words(out, "]")
}

/// A text in quotes, with escapes where it needs them.
fn quoted(out: &mut Vec<u8>, text: &str) -> Result<(), NoMemory>
    ensures { OnOk result (out.new.items ≡ out.old.items ++ quoted_text text.now) }
{
    let empty = Vec::new(*out.allocator());
    let mut w = Writer::new(mem::replace(out, empty));
    w.string(text)?;
    *out = w.into_inner();
    Ok(())
}

/// The two numbers of a row between these words.
fn start_between(out: &mut Vec<u8>, before: &str, row: Start, behind: &str) -> Result<(), NoMemory>
    ensures { OnOk result (out.new.items ≡ out.old.items
        ++ ((before.now ++ decimal row.incarnation) ++ (codes "," ++ (decimal row.index ++ behind.now)))) }
{
    number_after(out, before, u64::from(row.incarnation))?;
    number_between(out, ",", row.index, behind)?;
    Ok(())
}

/// The two numbers of a mark behind these words.
fn mark_after(out: &mut Vec<u8>, before: &str, at: Mark) -> Result<(), NoMemory>
    ensures { OnOk result (out.new.items ≡ out.old.items
        ++ ((before.now ++ decimal at.incarnation) ++ (codes "," ++ decimal at.index))) }
{
    number_after(out, before, u64::from(at.incarnation))?;
    number_after(out, ",", u64::from(at.index))?;
    Ok(())
}

fn number_between(out: &mut Vec<u8>, before: &str, n: u64, behind: &str) -> Result<(), NoMemory>
    ensures { OnOk result (out.new.items ≡ out.old.items ++ (before.now ++ (decimal n ++ behind.now))) }
{
    number_after(out, before, n)?;
    words(out, behind)?;
    Ok(())
}

/// A number behind these words. Most have one digit, which needs no room.
#[inline(always)]
#[tactic(auto, using(std::proofs::lemmas::Fmt::decimal_digit))]
fn number_after(out: &mut Vec<u8>, before: &str, n: u64) -> Result<(), NoMemory>
    ensures { OnOk result (out.new.items ≡ out.old.items ++ (before.now ++ decimal n)) }
{
    words(out, before)?;
    if n < 10 {
        out.push(b'0' + n as u8)?;
        return Ok(());
    }
    let mut room = Buffer::new();
    words(out, room.format(n))
}

#[inline(always)]
fn words(out: &mut Vec<u8>, text: &str) -> Result<(), NoMemory>
    ensures { OnOk result (out.new.items ≡ out.old.items ++ text.now) }
{
    out.extend_from_slice(text.as_bytes())?;
    Ok(())
}
