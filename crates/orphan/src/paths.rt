//! Tests of the vectors of a path.

ghost use Rattle.std.specs.Prelude.{◌≡◌, ◌<◌, ◌^◌, length, take};
ghost use Rattle.std.specs.List.{position};
ghost use Rattle.orphan.specs.Tests.{is_orphan_by};

use crate::vectors::is_orphan;
use depvector::DepVector;
use incarnation::StartTable;

/// The first place of a path whose vector the first `known` rows make an orphan. Takes no memory, and
/// a constant time for each entry of each vector. For writers of another host: a tenant's path is a
/// `rollback::RecoveryUnit`, whose `first_orphan` looks at fewer of its vectors.
pub fn first_orphan(path: &[DepVector], table: &StartTable, known: usize) -> Option<u32>
    requires { length path.now < 2 ^ 32 }
    ensures { result ≡ position (is_orphan_by (take known table.now)) path.now }
{
    for (place, vector) in path.iter().enumerate() {
        if is_orphan(vector, table, known) {
            return Some(place as u32);
        }
    }
    None
}
