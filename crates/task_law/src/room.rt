//! How a full task queue gets a free place.

ghost use Rattle.task_law.specs.Room.{CoalesceShortensQueue, SomeRuleApplies, VictimIsLegal, VictimMakesRoom};

/// At each queue whose capacity is two or more some rule applies: a place is free, or an idle firm task moves, or the
/// requester stalls, or, where it is the least task, a victim is aborted.
pub fn some_rule_applies()
    ensures { SomeRuleApplies }
{}

/// What is aborted for a victim (the victim where it is firm, else its creator) is dispatched, isn't the requester, and
/// is above it.
pub fn victim_is_legal()
    ensures { VictimIsLegal }
{}

/// After the abort of a victim, or of its creator, the queue is shorter, or the victim is an idle firm task of it,
/// which moves next.
pub fn victim_makes_room()
    ensures { VictimMakesRoom }
{}

/// Where a queue contains an idle firm task, a coalescing makes it shorter.
pub fn coalesce_shortens_queue()
    ensures { CoalesceShortensQueue }
{}
