//! The laws of one tenant, each as the contract of a function that does nothing, for every handler.
//!
//! They speak of the worlds that a tenant can come to by the definitions that the contract of
//! `Tenant::step` cites. Their statements stand in `theory/specs/Laws`.

ghost use Rattle.theory.specs.Laws.{FirmStays, PathsKept, ChainLaw, ForksAreLost, CertificateLaw, ReleasedAreFirm};
ghost use Rattle.theory.specs.Laws.{ReleasedGrow, ReleaseIsWhole, HeldCanGo, NotFirmCanGo, VectorsTell, VectorsJoin};
ghost use Rattle.theory.specs.Laws.{FirmByVector, UnstableByVector, StatesAreFolds, NumbersAlongPaths, NoOrphans};
ghost use Rattle.theory.specs.Laws.{NoNoticeAppends, CoursesReach, StaysOpen, ReleasedStay, StaysWithin};

use handler::Handler;

/// A firm node stays firm.
pub fn firm_stays<H: Handler>()
    ensures { FirmStays H.meaning }
{}

/// No node on a path is lost by the table.
pub fn paths_kept<H: Handler>()
    ensures { PathsKept H.meaning }
{}

/// Any two nodes of one unit in one past are on one line of predecessors.
pub fn chain<H: Handler>()
    ensures { ChainLaw H.meaning }
{}

/// Of two nodes of one unit that are not on one line, the one of the lesser incarnation is lost by the rows by which
/// the other is not blind.
pub fn forks_are_lost<H: Handler>()
    ensures { ForksAreLost H.meaning }
{}

/// The certificate is a run without failures that fits the world, and whose outputs begin with those released.
pub fn certificate<H: Handler>()
    ensures { CertificateLaw H.meaning }
{}

/// What a unit released is a beginning of the outputs of its path's firm front.
pub fn released_are_firm<H: Handler>()
    ensures { ReleasedAreFirm H.meaning }
{}

/// Only a release of the unit lengthens its released list, and no step shortens one.
pub fn released_grow<H: Handler>()
    ensures { ReleasedGrow H.meaning }
{}

/// An accepted release leaves just the outputs of the firm front released.
pub fn release_is_whole<H: Handler>()
    ensures { ReleaseIsWhole H.meaning }
{}

/// The node of the first output held after a release can be lost.
pub fn held_can_go<H: Handler>()
    ensures { HeldCanGo H.meaning }
{}

/// A node of a path that is not firm can be lost, where its unit is up.
pub fn not_firm_can_go<H: Handler>()
    ensures { NotFirmCanGo H.meaning }
{}

/// The greatest marks of a past tell whether it is blind or an orphan.
pub fn vectors_tell<H: Handler>()
    ensures { VectorsTell H.meaning }
{}

/// A vector is the join of those of the parents, with the own mark set.
pub fn vectors_join<H: Handler>()
    ensures { VectorsJoin H.meaning }
{}

/// A node is firm where each greatest mark of its past is stable.
pub fn firm_by_vector<H: Handler>()
    ensures { FirmByVector H.meaning }
{}

/// A unit has an unstable node in a past just where its greatest mark there is not stable.
pub fn unstable_by_vector<H: Handler>()
    ensures { UnstableByVector H.meaning }
{}

/// The state of a unit is the fold of the receipts on its path.
pub fn states_are_folds<H: Handler>()
    ensures { StatesAreFolds H.meaning }
{}

/// The numbers of the next letters go on from the counts along the path.
pub fn numbers_along_paths<H: Handler>()
    ensures { NumbersAlongPaths H.meaning }
{}

/// Without optimism no path has an orphan.
pub fn no_orphans<H: Handler>()
    ensures { NoOrphans H.meaning }
{}

/// Without optimism no notice appends a row.
pub fn no_notice_appends<H: Handler>()
    ensures { NoNoticeAppends H.meaning }
{}

/// Each list of steps leads to a world that the tenant can come to.
pub fn courses_reach<H: Handler>()
    ensures { CoursesReach H.meaning }
{}

/// A tenant that is open stays open.
pub fn stays_open<H: Handler>()
    ensures { StaysOpen H.meaning }
{}

/// What is released and what is firm stays so over all further steps.
pub fn released_stay<H: Handler>()
    ensures { ReleasedStay H.meaning }
{}

/// Of each unit a tenant has no more than its quotas and the limits allow.
pub fn stays_within<H: Handler>()
    ensures { StaysWithin H.meaning }
{}
