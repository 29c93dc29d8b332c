//! Audits: after the replies, one audit line for each open tenant.

ghost use Rattle.auditor.specs.Parting.{AreParts};

use audit::audit_line;
use auditor::{Parts, audit_part, parts_of};
use book::Book;
use handler::Handler;
use log::{Log, error};
use model::{NoMemory, TenantName};
use shared_log::Store;
use std::alloc::Global;
use std::io::Write;

/// Audits each open tenant, in the order of their names, and writes a line for each. Tells the
/// status to end with: 0 where all audits say yes, and else 1.
///
/// The history is parted by tenants once, and each audit reads its part alone: all take time by the
/// length of the history, but for the sorting of the names.
pub fn audit_all<L: Log, W: Write, H: Handler, S: Store>(
    rt: &L,
    alloc: Global,
    handler: &H,
    writer: &mut W,
    book: &Book<H, S>,
) -> u8 {
    let Ok(names) = sorted_names(alloc, book) else {
        error!(rt; "there is no memory for the names of the tenants: none is audited");
        return 1;
    };
    let Ok(parts) = parts_of(alloc, book) else {
        error!(rt; "there is no memory to part the history by tenants: none is audited");
        return 1;
    };
    let status = audit_each(rt, alloc, handler, writer, book, &parts, names);
    parts.forget();
    status
}

/// Audits the tenants of these names, and tells the status to end with.
fn audit_each<L: Log, W: Write, H: Handler, S: Store>(
    rt: &L,
    alloc: Global,
    handler: &H,
    writer: &mut W,
    book: &Book<H, S>,
    parts: &Parts,
    names: Vec<String>,
) -> u8
    requires { AreParts parts.now book.now.history }
{
    let mut status = 0;
    for name in names {
        match audit_one(rt, alloc, handler, writer, book, parts, name) {
            Some(true) => {}
            Some(false) => status = 1,
            None => return 1,
        }
    }
    if writer.flush().is_err() {
        error!(rt; "the output can't be written: audit lines are missing");
        status = 1;
    }
    status
}

/// The names of the open tenants, sorted by their bytes.
fn sorted_names<H: Handler, S: Store>(
    alloc: Global,
    book: &Book<H, S>,
) -> Result<Vec<String>, NoMemory> {
    let mut names = Vec::new(alloc);
    for name in book.tenants()? {
        names.push(String::from_str(alloc, name.as_str())?)?;
    }
    names.sort_unstable();
    Ok(names)
}

/// Writes the audit line of a tenant, and tells whether it says yes; none where it isn't out, and none
/// can follow.
fn audit_one<L: Log, W: Write, H: Handler, S: Store>(
    rt: &L,
    alloc: Global,
    handler: &H,
    writer: &mut W,
    book: &Book<H, S>,
    parts: &Parts,
    name: String,
) -> Option<bool>
    requires { AreParts parts.now book.now.history }
{
    let Some(tenant) = TenantName::new(name.as_str()) else {
        error!(rt; "a tenant has no name: it is not audited");
        return Some(false);
    };
    let outcome = audit_part(alloc, handler, book, parts, &tenant);
    let Ok(mut line) = audit_line(alloc, &tenant, &outcome) else {
        error!(rt; "there is no memory for an audit line: the audit ends");
        return None;
    };
    if line.push('\n').is_err() || writer.write_all(line.as_bytes()).is_err() {
        error!(rt; "an audit line can't be written: the audit ends");
        return None;
    }
    Some(outcome.is_ok())
}
