//! The audit of a tenant.

ghost use Rattle.std.specs.Prelude.{◌≡◌, IfOk, MatchOption, None, Some};
ghost use Rattle.book.specs.Certificates.{CertifiesAt, seats_at};
ghost use Rattle.book.specs.History.{entries_of, released_at, world_of};
ghost use Rattle.auditor.specs.Lists.{IsClear, lists_at};
ghost use Rattle.auditor.specs.Parting.{AreParts};

use crate::parts::Parts;
use audit::{Verdict, check};
use book::Book;
use handler::Handler;
use model::{Entry, Flaw, MAX_UNITS, Move, NoMemory, TenantName, Texts, Unit};
use shared_log::Store;
use std::alloc::Global;

/// What each unit of the tenant released, unit 0 first. There is nothing of a tenant that is not
/// open.
fn all_released<H: Handler, S: Store>(
    alloc: Global,
    book: &Book<H, S>,
    tenant: &TenantName,
) -> Result<Vec<Texts>, NoMemory>
    ensures { IfOk result (λ lists. lists.items ≡ lists_at (world_of H.meaning tenant.now book.now.history)) }
{
    let mut lists = Vec::new(alloc);
    for number in 0..MAX_UNITS as u8 {
        if let Some(released) = book.released(tenant, Unit::new(number)) {
            lists.push(Texts::of(alloc, released)?)?;
        }
    }
    Ok(lists)
}

/// Audits what a tenant of the book released by these moves, which are its certificate.
fn audit_moves<H: Handler, S: Store>(
    alloc: Global,
    handler: &H,
    book: &Book<H, S>,
    tenant: &TenantName,
    moves: &[Move],
) -> Result<Verdict, Flaw>
    requires { CertifiesAt H.meaning (world_of H.meaning tenant.now book.now.history) moves.now }
    ensures { IsClear (world_of H.meaning tenant.now book.now.history) result }
{
    let Ok(seats) = book.seats(tenant) else {
        return Err(Flaw::NoMemory);
    };
    let Ok(released) = all_released(alloc, book, tenant) else {
        return Err(Flaw::NoMemory);
    };
    check(alloc, handler, seats.as_slice(), moves, released.as_slice())
}

/// Audits what a tenant of the book released: its certificate is a run without failures of the seats
/// that it was opened with, and what each unit puts out in it begins with what the unit released.
///
/// There is never a flaw but want of memory. Of a tenant that is not open there is nothing to audit:
/// a yes to no moves.
pub fn audit_tenant<H: Handler, S: Store>(
    alloc: Global,
    handler: &H,
    book: &Book<H, S>,
    tenant: &TenantName,
) -> Result<Verdict, Flaw>
    ensures { IsClear (world_of H.meaning tenant.now book.now.history) result }
{
    let Ok(moves) = book.certificate(tenant) else {
        return Err(Flaw::NoMemory);
    };
    audit_moves(alloc, handler, book, tenant, moves.as_slice())
}

/// The tenant's own entries of the book's history, by its parts.
fn own_part<'a, H: Handler, S: Store>(
    _book: &Book<H, S>,
    parts: &'a Parts,
    tenant: &TenantName,
) -> &'a [Entry]
    requires { AreParts parts.now _book.now.history }
    ensures { result.now ≡ entries_of tenant.now _book.now.history }
{
    parts.of(tenant)
}

/// The same audit, by the tenant's part of the book's history, in time by the length of that part
/// and of what the tenant released: so the audits of all tenants take time by the length of the
/// history.
pub fn audit_part<H: Handler, S: Store>(
    alloc: Global,
    handler: &H,
    book: &Book<H, S>,
    parts: &Parts,
    tenant: &TenantName,
) -> Result<Verdict, Flaw>
    requires { AreParts parts.now book.now.history }
    ensures { IsClear (world_of H.meaning tenant.now book.now.history) result }
{
    let Ok(moves) = book.certificate_by(tenant, own_part(book, parts, tenant)) else {
        return Err(Flaw::NoMemory);
    };
    audit_moves(alloc, handler, book, tenant, moves.as_slice())
}
