//! The certificate of what was released: a run without failures, made of the history.

ghost use Rattle.std.specs.Prelude.{◌≡◌, ℕ, List, Option, IfOk, Some};
ghost use Rattle.model.specs.Alone.{alone};
ghost use Rattle.model.specs.FailureFree.{certificate as certificate_of};
ghost use Rattle.model.specs.History.{IsLegal, own, pairs};
ghost use Rattle.model.specs.World.{World};
ghost use Rattle.model.specs.declared.records.Record.{Record};
ghost use Rattle.certificate.specs.Laws.{AreCertificate};
ghost use Rattle.tenant.specs.Reads.{routes_by};
ghost use Rattle.tenant.specs.Stands.{Stands};

use crate::tenant::Tenant;
use certificate::Route;
use handler::Handler;
use model::{Entry, Move, NoMemory, TenantName};
use std::alloc::Global;
use unit_steps::{LetterRef, SentLetters};

fn route_of(letter: &LetterRef<'_>) -> Route
    ensures { result ≡ record { source = letter.now.source; receiver = letter.now.receiver } }
{
    Route {
        source: letter.source,
        receiver: letter.receiver,
    }
}

/// The route of each letter.
fn routes(alloc: Global, letters: &SentLetters) -> Result<Vec<Route>, NoMemory>
    ensures { IfOk result (λ routes. routes.items ≡ routes_by letters.now.items) }
{
    let mut routes = Vec::new(alloc);
    for number in 0..letters.len() {
        routes.push(route_of(&letters.at(number)))?;
    }
    Ok(routes)
}

impl<H: Handler> Tenant<H> {
    /// The moves by the history and by what is kept.
    fn moves(
        &self,
        alloc: Global,
        handler: &H,
        history: &[Entry],
        name: &TenantName,
    ) -> Result<Vec<Move>, NoMemory>
        ensures { IfOk result (λ moves.
            AreCertificate H.meaning name.now history.now self.now.table self.now.frontiers
            (routes_by self.now.letters) moves.items) }
    {
        let routes = routes(alloc, &self.letters)?;
        let frontiers = self.frontiers.as_slice();
        certificate::certificate(
            alloc,
            handler,
            history,
            name,
            &self.table,
            frontiers,
            routes.as_slice(),
        )
    }

    /// The receipts of all firm intervals and the joins, in order of creation: a run without
    /// failures, whose outputs begin with what was released. It is made of the history in which the
    /// tenant came to be what it is, in time by the length of that history.
    ///
    /// # Errors
    ///
    /// `NoMemory` where the moves or the routes of the letters find none.
    pub fn certificate(
        &self,
        alloc: Global,
        handler: &H,
        history: &[Entry],
        name: &TenantName,
    ) -> Result<Vec<Move>, NoMemory>
        ensures { IfOk result (λ moves. (w : World) (records : List (Option Record))
            → Stands H.meaning name.now self.now w records → IsLegal H.meaning history.now
            → (alone H.meaning (own name.now (pairs history.now))).world ≡ Some w → moves.items ≡ certificate_of w) }
    {
        let moves = self.moves(alloc, handler, history, name)?;
        Ok(moves)
    }
}
