//! Laws of blocks.

ghost use Rattle.spill_store.specs.Draining.{ComesBackLeastFirst};
ghost use Rattle.spill_store.specs.Pushing.{PushesStandInOrder, PushGoesBehindTies};

/// Law: what a block holds comes back by `take_least`, each task once, the least key first.
pub fn block_gives_back()
    ensures { ComesBackLeastFirst }
{}

/// Law: an empty block has what is pushed into it, each task once, the least key first.
pub fn pushes_stand_in_order()
    ensures { PushesStandInOrder }
{}

/// Law: of the tasks of one key, the one that is pushed goes behind the others, and they stay in their order.
pub fn push_goes_behind_ties()
    ensures { PushGoesBehindTies }
{}
