//! Whether an audit can be made.

ghost use Rattle.std.specs.Prelude.{◌≡◌, ◌+◌, ◌∷◌, [], length};
ghost use Rattle.std.specs.Bool.{OnTrue};
ghost use Rattle.audit.specs.Audits.{AreNumbered, joins};

use model::{Move, Seat, Texts};

/// Whether the seats' units are numbered 0 upwards.
fn are_numbered(seats: &[Seat]) -> bool
    ensures { OnTrue result (AreNumbered seats.now) }
{
    let mut left = seats.len();
    while left > 0 {
        left -= 1;
        if usize::from(seats[left].unit.number()) != left {
            return false;
        }
    }
    true
}

/// How many units join by the move.
fn joins_by(moved: &Move) -> usize
    ensures { result ≡ joins (moved.now ∷ []) }
{
    match moved {
        Move::Outside { .. } => 0,
        Move::Letter { .. } => 0,
        Move::Join { .. } => 1,
    }
}

/// How many units join by these moves.
fn join_count(moves: &[Move]) -> usize
    ensures { result ≡ joins moves.now }
{
    let mut count = 0;
    for moved in moves {
        count += joins_by(moved);
    }
    count
}

/// Whether `check` may be asked: the seats are numbered 0 upwards, and there is a list for each seat
/// and for each unit that joins.
pub fn can_check(seats: &[Seat], moves: &[Move], released: &[Texts]) -> bool
    ensures seats { OnTrue result (AreNumbered seats.now) }
    ensures lists { OnTrue result (length released.now ≡ length seats.now + joins moves.now) }
{
    if !are_numbered(seats) || released.len() < seats.len() {
        return false;
    }
    join_count(moves) == released.len() - seats.len()
}
