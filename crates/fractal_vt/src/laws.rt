//! Laws of the order of keys, and of renumbering.

ghost use Rattle.std.specs.Cmp.{IsTotalOrder};
ghost use Rattle.fractal_vt.specs.Keys.{key_cmp};
ghost use Rattle.fractal_vt.specs.Renumbered.{RenumberingKeepsKeyOrder, RenumberingKeepsPrefixes};
ghost use Rattle.fractal_vt.specs.Renumbered.{RenumberingKeepsDomains};
ghost use Rattle.fractal_vt.specs.Renumbered.{NumbersStayApart, PlacesAreWhereNumbersStand};
ghost use Rattle.fractal_vt.specs.Laws.{OnlyEqualKeysTie, ExtensionsAreGreater, OpenIsAboveNumbers, DeeperIsLess};
ghost use Rattle.fractal_vt.specs.Laws.{LastLevelsDecide};

/// Law: the order of keys is a total order.
pub fn cmp_is_total()
    ensures { IsTotalOrder key_cmp }
{}

/// Law: two keys are equal in the order exactly where they are one.
pub fn equal_keys_alone()
    ensures { OnlyEqualKeysTie }
{}

/// Law: a key whose levels properly begin another's is less.
pub fn extension_is_greater()
    ensures { ExtensionsAreGreater }
{}

/// Law: an open tiebreaker is above every number.
pub fn open_is_above_numbers()
    ensures { OpenIsAboveNumbers }
{}

/// Law: of two keys on one path the deeper is the lesser.
pub fn deeper_is_less()
    ensures { DeeperIsLess }
{}

/// Law: two keys of one depth on one path compare as their last levels do.
pub fn same_depth_by_last_level()
    ensures { LastLevelsDecide }
{}

/// Law: keys whose tiebreakers a table holds compare by the tiebreakers' places in it as by the tiebreakers.
pub fn renumbering_keeps_key_order()
    ensures { RenumberingKeepsKeyOrder }
{}

/// Law: of two domains whose tiebreakers a table holds, one begins the other exactly where it does so renumbered.
pub fn renumbering_keeps_prefixes()
    ensures { RenumberingKeepsPrefixes }
{}

/// Law: a domain begins the levels of a key, both with tiebreakers that a table holds, exactly where it does so
/// renumbered.
pub fn renumbering_keeps_domains()
    ensures { RenumberingKeepsDomains }
{}

/// Law: two numbers of a table differ exactly where their places do.
pub fn numbers_stay_apart()
    ensures { NumbersStayApart }
{}

/// Law: a number of a strictly rising table has the place at which it stands.
pub fn places_are_where_numbers_stand()
    ensures { PlacesAreWhereNumbersStand }
{}
