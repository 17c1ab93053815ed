//! Laws of lock histories, calls and merged sets, as the contract of an empty function.
ghost use Rattle.ext_locks.specs.LockLaws.{LegalIsLawful, OwnEventsDecide, FreeIsNotHeld, EmptyIsLegal, FreshIsEmpty, OnlyLanesHold, BeginningsAreLegal, CallsCompose, NoCall, OneMergedSet};

/// Proves the laws of lock histories, of calls and of merged sets.
///
/// JUnit 5 User Guide, section "Synchronization", for `lawful`; the others are own rules.
pub fn lock_laws()
    ensures lawful { LegalIsLawful }
    ensures own { OwnEventsDecide }
    ensures free { FreeIsNotHeld }
    ensures empty { EmptyIsLegal }
    ensures fresh { FreshIsEmpty }
    ensures only_lanes { OnlyLanesHold }
    ensures beginnings { BeginningsAreLegal }
    ensures compose { CallsCompose }
    ensures none { NoCall }
    ensures one_set { OneMergedSet }
{}
