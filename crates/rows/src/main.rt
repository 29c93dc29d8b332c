//! The worked rows, as bytes in and bytes out through `lines::serve`.
//!
//! For each name on standard input, the step lines of `NAME.steps` go to a new book, and the reply
//! lines must be those of `NAME.replies`, which were written down from the rules, not taken from
//! the program. They must be the same where a busy tenant does its steps before each of the lines,
//! and where the store fails any one append or fetch and the step that it refused is given again.
//!
//! For a name that begins with `turns-` the lines also tell which turns are worked beside
//! the book, and for one that begins with `fails-` which calls of the store fail: there the replies to
//! all steps by one call, and what the book then tells of each tenant, must be the same. Those of
//! `certified-` show seats, moves and audits, those of `told-` what a book tells of its tenants and
//! entries, those of `kept-` how much of a unit's past is kept, and those of `audited-` are audits of
//! lists from anywhere. Those of `driven-` are what a driver writes, by a book and by a host.
//!
//! A book that is done with is not let go of: the program ends soon, and the proof of what a book lets go of is long.
//!
//! `once NAME` does the steps of a row of `kept-` once, over a store that never fails, and tells
//! whether some step found no memory. `book NAME` and `host NAME` print what a driver writes of a row of `driven-`,
//! and end with an error where it didn't come to the end.
#![tactic(auto)]

mod answers;
mod at_once;
mod audited;
mod beside;
mod calls;
mod certified;
mod driven;
mod failing;
mod kept;
mod reading;
mod told;
mod turned;

use anyhow::bail;
use at_once::with_own;
use audited::audit;
use beside::{every, with_noise};
use calls::{new_book, serve_all};
use certified::certify;
use driven::{Written, written_by_a_book, written_by_a_host};
use failing::{Again, Way, failed, once, steps_of, survives_each};
use lines::Counted;
use reading::{answers_up_to_each, writes_up_to_each};
use std::alloc::Global;
use std::{fs, str};
use told::tell;
use turned::turn;

fn main(rt: HostRuntime) -> anyhow::Result<()> {
    for name in rt.lines(rt.alloc()) {
        let name = name?;
        if let Some(row) = name.strip_prefix("book ") {
            let steps = text_of(&rt, row, "steps")?;
            print_all(&rt, written_by_a_book(rt.alloc(), steps.as_str())?)?;
        } else if let Some(row) = name.strip_prefix("host ") {
            let steps = text_of(&rt, row, "steps")?;
            print_all(&rt, written_by_a_host(rt.alloc(), steps.as_str())?)?;
        } else {
            let what = verdict(&rt, name.as_str())?;
            println!(rt; "{name}: {what}")?;
        }
    }
    Ok(())
}

/// Prints what a driver wrote.
fn print_all(rt: &HostRuntime, written: Written) -> anyhow::Result<()> {
    print!(rt; "{}", str::from_utf8(written.bytes.as_slice())?)?;
    if !written.is_whole {
        bail!("the driver did not come to the end");
    }
    Ok(())
}

/// How a row came out.
fn verdict(rt: &HostRuntime, name: &str) -> anyhow::Result<&'static str> {
    let row = name.strip_prefix("once ").unwrap_or(name);
    let steps = text_of(rt, row, "steps")?;
    let replies = text_of(rt, row, "replies")?;
    row_verdict(rt.alloc(), name, steps.as_str(), replies.as_str())
}

/// The text of a row's file.
fn text_of(rt: &HostRuntime, row: &str, ending: &str) -> anyhow::Result<String> {
    let file = format!(in rt.alloc(); "{row}.{ending}")?;
    Ok(fs::read_to_string(rt, file)?)
}

/// How the row of this name with these lines came out.
fn row_verdict(
    alloc: Global,
    name: &str,
    steps: &str,
    replies: &str,
) -> anyhow::Result<&'static str> {
    if name.starts_with("once ") {
        once_verdict(alloc, steps, replies)
    } else if name.starts_with("kept-") {
        kept_verdict(alloc, steps, replies)
    } else if name.starts_with("turns-") {
        turned_verdict(alloc, steps, replies)
    } else if name.starts_with("fails-") {
        failed_verdict(alloc, steps, replies)
    } else if name.starts_with("driven-") {
        driven_verdict(alloc, steps, replies)
    } else if name.starts_with("certified-") {
        certified_verdict(alloc, steps, replies)
    } else if name.starts_with("told-") {
        told_verdict(alloc, steps, replies)
    } else if name.starts_with("audited-") {
        audited_verdict(alloc, steps, replies)
    } else {
        worked_verdict(alloc, steps, replies)
    }
}

fn once_verdict(alloc: Global, steps: &str, replies: &str) -> anyhow::Result<&'static str> {
    let all = once(alloc, steps)?;
    Ok(once_words(&all, replies))
}

fn once_words(all: &Again, replies: &str) -> &'static str {
    if all.replies.as_str() != replies {
        "what is kept differs"
    } else if all.refused {
        "what is kept is as it must be, and a step found no memory"
    } else {
        "what is kept is as it must be, and each step found memory"
    }
}

fn kept_verdict(alloc: Global, steps: &str, replies: &str) -> anyhow::Result<&'static str> {
    Ok(if survives_each(alloc, steps, replies)? {
        "what is kept is as it must be, also where any append or fetch fails"
    } else {
        "what is kept differs"
    })
}

fn turned_verdict(alloc: Global, steps: &str, replies: &str) -> anyhow::Result<&'static str> {
    let mut text = String::new(alloc);
    turn(alloc, steps, &mut text)?;
    Ok(if text.as_str() == replies {
        "the replies are as they must be, by turns that were worked beside the book"
    } else {
        "the replies by turns that were worked beside the book differ"
    })
}

fn driven_verdict(alloc: Global, steps: &str, replies: &str) -> anyhow::Result<&'static str> {
    if !written_by_a_book(alloc, steps)?.is(replies) {
        return Ok("what a driver writes by a book differs");
    }
    if !written_by_a_host(alloc, steps)?.is(replies) {
        return Ok("what a driver writes by a host differs");
    }
    Ok("a driver writes what it must, by a book and by a host")
}

fn failed_verdict(alloc: Global, steps: &str, replies: &str) -> anyhow::Result<&'static str> {
    if failed(alloc, steps, Way::OneByOne)?.as_str() != replies {
        return Ok("the replies over a store that fails differ");
    }
    if !is_told_at_once(alloc, steps, replies)? {
        return Ok("the replies to all steps at once over a store that fails differ");
    }
    Ok("the replies are as they must be over a store that fails, one by one and at once")
}

/// Whether by one call the replies are these, and what the book then tells of each tenant its own.
fn is_told_at_once(alloc: Global, steps: &str, replies: &str) -> anyhow::Result<bool> {
    let told = told_of(alloc, steps, replies)?;
    let got = failed(alloc, steps, Way::AtOnce)?;
    Ok(got.as_str() == told.as_str())
}

fn told_of(alloc: Global, steps: &str, replies: &str) -> anyhow::Result<String> {
    let steps = steps_of(alloc, steps)?;
    with_own(alloc, steps.as_slice(), replies)
}

fn certified_verdict(alloc: Global, steps: &str, replies: &str) -> anyhow::Result<&'static str> {
    let mut text = String::new(alloc);
    certify(alloc, steps, &mut text)?;
    Ok(if text.as_str() == replies {
        "seats, moves and audits are as they must be"
    } else {
        "seats, moves or audits differ"
    })
}

fn told_verdict(alloc: Global, steps: &str, replies: &str) -> anyhow::Result<&'static str> {
    let mut text = String::new(alloc);
    tell(alloc, steps, &mut text)?;
    Ok(if text.as_str() == replies {
        "what the book tells is as it must be"
    } else {
        "what the book tells differs"
    })
}

fn audited_verdict(alloc: Global, steps: &str, replies: &str) -> anyhow::Result<&'static str> {
    let mut text = String::new(alloc);
    audit(alloc, steps, &mut text)?;
    Ok(if text.as_str() == replies {
        "the audits are as they must be"
    } else {
        "the audits differ"
    })
}

fn worked_verdict(alloc: Global, steps: &str, replies: &str) -> anyhow::Result<&'static str> {
    if !is_answered(alloc, steps, replies)? {
        return Ok("the replies differ from those that they must be");
    }
    if !is_same_beside(alloc, steps, replies)? {
        return Ok("the replies differ beside a busy tenant");
    }
    if !survives_each(alloc, steps, replies)? {
        return Ok("the replies differ where an append or a fetch fails");
    }
    if !answers_up_to_each(alloc, steps, replies)? {
        return Ok("the replies differ where the input fails");
    }
    if !writes_up_to_each(alloc, steps, replies) {
        return Ok("the replies differ where the output fails");
    }
    Ok(
        "the replies are as they must be, alone, beside a busy tenant and where any append or fetch, the input or the output fails",
    )
}

/// Whether the replies are those, alone.
fn is_answered(alloc: Global, steps: &str, replies: &str) -> anyhow::Result<bool> {
    let alone = served(alloc, steps.as_bytes())?;
    Ok(alone.as_slice() == replies.as_bytes())
}

/// Whether the replies are the same beside a busy tenant.
fn is_same_beside(alloc: Global, steps: &str, replies: &str) -> anyhow::Result<bool> {
    let beside = served(alloc, with_noise(alloc, steps)?.as_slice())?;
    let own = every(alloc, beside.as_slice())?;
    Ok(own.as_slice() == replies.as_bytes())
}

/// The reply lines of a new book to these step lines.
fn served(alloc: Global, steps: &[u8]) -> anyhow::Result<Vec<u8>> {
    let mut reader = Counted::new(steps);
    let mut writer = Counted::new(Vec::new(alloc));
    let mut book = new_book(alloc);
    serve_all(alloc, &mut reader, &mut writer, &mut book)?;
    Ok(writer.inner)
}
