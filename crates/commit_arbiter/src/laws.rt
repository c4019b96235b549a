//! The law of an index: its order is one.

ghost use Rattle.commit_arbiter.specs.Indexed.{IndexOrderIsOne};

/// Law: two lists in the order of an index that hold the same candidates are one.
pub fn index_order_is_one()
    ensures { IndexOrderIsOne }
{}
