//! The laws of the order of tasks.

ghost use Rattle.order_law.specs.Laws.{AbortKeepsHeir, AbortKeepsOrder, CascadeLiesAbove, CascadeSparesLower};
ghost use Rattle.order_law.specs.Laws.{CommitKeepsOrder, DispatchKeepsHeir};
ghost use Rattle.order_law.specs.Laws.{DomainNumbersAreHeld, DispatchKeepsOrder, DispatchMakesHeir};
ghost use Rattle.order_law.specs.Laws.{DispatchedAreAboveLeast, LeastIsHeir, LeastIsInnermost, OpeningIsOrdered};
ghost use Rattle.order_law.specs.Laws.{RenumberingKeepsOrder, EnqueueKeepsHeir, EnqueueKeepsOrder, SpillKeepsHeir};
ghost use Rattle.order_law.specs.Laws.{SpillKeepsLeast, SpillKeepsOrder};

/// Law: before the first event the order of the tasks holds.
pub fn opening_is_ordered()
    ensures { OpeningIsOrdered }
{}

/// Law: a dispatch keeps the order of the tasks.
pub fn dispatch_keeps_order()
    ensures { DispatchKeepsOrder }
{}

/// Law: a new child in its creator's domain, in the subdomain or in the superdomain keeps the order of the tasks.
pub fn enqueue_keeps_order()
    ensures { EnqueueKeepsOrder }
{}

/// Law: an abort, which makes tasks idle again and discards others, keeps the order of the tasks.
pub fn abort_keeps_order()
    ensures { AbortKeepsOrder }
{}

/// Law: a commit of the least task keeps the order of the tasks, with the levels of its key as the new path.
pub fn commit_keeps_order()
    ensures { CommitKeepsOrder }
{}

/// Law: a coalescing and a split keep the order of the queued and the spilled tasks.
pub fn spill_keeps_order()
    ensures { SpillKeepsOrder }
{}

/// Law: each number of a domain is one of the path or that of a dispatched task.
pub fn domain_numbers_are_held()
    ensures { DomainNumbersAreHeld }
{}

/// Law: each dispatch number replaced by its place in a rising table of the numbers in use keeps the order of the
/// tasks.
pub fn renumbering_keeps_order()
    ensures { RenumberingKeepsOrder }
{}

/// Law: the least task has a committed creator, the greatest depth among such tasks and the least timestamp of its
/// depth.
pub fn least_is_innermost()
    ensures { LeastIsInnermost }
{}

/// Law: each dispatched task but the least is above it.
pub fn dispatched_are_above_least()
    ensures { DispatchedAreAboveLeast }
{}

/// Law: a least task that has been dispatched is below all others.
pub fn least_is_heir()
    ensures { LeastIsHeir }
{}

/// Law: a least task is below all others once it is dispatched.
pub fn dispatch_makes_heir()
    ensures { DispatchMakesHeir }
{}

/// Law: a dispatch of another task leaves the dispatched least task below all others.
pub fn dispatch_keeps_heir()
    ensures { DispatchKeepsHeir }
{}

/// Law: a new child leaves the dispatched least task below all others.
pub fn enqueue_keeps_heir()
    ensures { EnqueueKeepsHeir }
{}

/// Law: an abort that spares the dispatched least task leaves it below all others.
pub fn abort_keeps_heir()
    ensures { AbortKeepsHeir }
{}

/// Law: a coalescing and a split leave the dispatched least task below all others.
pub fn spill_keeps_heir()
    ensures { SpillKeepsHeir }
{}

/// Law: a least task is still the least once it is spilled or has returned.
pub fn spill_keeps_least()
    ensures { SpillKeepsLeast }
{}

/// Law: a cascade lies above whatever its first tasks lie above.
pub fn cascade_lies_above()
    ensures { CascadeLiesAbove }
{}

/// Law: a cascade whose first tasks lie above a task, such as the dispatched least task or the requester, spares it.
pub fn cascade_spares_lower()
    ensures { CascadeSparesLower }
{}
