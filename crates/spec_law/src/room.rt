//! Laws of room in a task queue, of the task that a split brings back, and of a child's key. Each is the contract of
//! a function that does nothing.

ghost use Rattle.spec_law.specs.RoomLaws.{ChildIsAbove, CoalesceMakesRoom, FirmIsFirm, MovableIsMovable};
ghost use Rattle.spec_law.specs.RoomLaws.{RoomIsMade, SplitKeepsLeast, SplitReturnsLeast, VictimIsLater};
ghost use Rattle.spec_law.specs.RoomLaws.{VictimIsVictim};

/// In a sound view a task is firm exactly where the laws of room call it so.
pub fn firm_is_firm()
    ensures { FirmIsFirm }
{}

/// In a sound view a task of a tile's queue may move exactly where the laws of room let it.
pub fn movable_is_movable()
    ensures { MovableIsMovable }
{}

/// The victim, which is the last of a queue's tasks but the requester where places break ties, is one that the laws of
/// room allow: none of these has a greater key.
pub fn victim_is_victim()
    ensures { VictimIsVictim }
{}

/// In a sound view, where nothing in a tile's queue moves and the least task requests room, the task that is aborted
/// for the victim (the victim where it is firm, else its creator) is dispatched, isn't the least task, and is above it.
pub fn victim_is_later()
    ensures { VictimIsLater }
{}

/// A coalescing makes its tile's queue shorter, and no queue longer.
pub fn coalesce_makes_room()
    ensures { CoalesceMakesRoom }
{}

/// In a sound view a tile's queue has room once it was made in it, by whichever rule.
pub fn room_is_made()
    ensures { RoomIsMade }
{}

/// Where the least task is spilled in a tile, a split takes it out of the block, and the task that comes back has
/// its key.
pub fn split_returns_least()
    ensures { SplitReturnsLeast }
{}

/// In a sound view, where the least task is spilled in a tile, the task that comes back by a split is the least one
/// from then on.
pub fn split_keeps_least()
    ensures { SplitKeepsLeast }
{}

/// In a sound view the child of an enqueue that is allowed stands where the law of order lets it, and its key is
/// above its creator's.
pub fn child_is_above()
    ensures { ChildIsAbove }
{}
