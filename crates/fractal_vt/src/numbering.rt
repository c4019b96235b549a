//! Tiebreakers replaced by their places in a table.

ghost use Rattle.std.specs.Prelude.{◌≡◌, map};
ghost use Rattle.std.specs.List.Sorted.{IsStrictlyIncreasing};
ghost use Rattle.fractal_vt.specs.Renumbered.{place_in, renumbered_level, renumbered_levels, renumbered_key};

use crate::key::Key;
use crate::level::Level;
use crate::vt::Vt;

/// The place of a number in a strictly rising table: how many numbers there are below it.
fn place_in(table: &[u64], number: u64) -> u64
    requires rising { IsStrictlyIncreasing table.now }
    ensures { result ≡ place_in table.now number }
{
    match table.binary_search(&number) {
        Ok(at) => at as u64,
        Err(at) => at as u64,
    }
}

/// The level with its tiebreaker's place in the table.
pub(crate) fn renumber_level(level: Level, table: &[u64]) -> Level
    requires rising { IsStrictlyIncreasing table.now }
    ensures { result ≡ renumbered_level table.now level }
{
    Level {
        ts: level.ts,
        tb: place_in(table, level.tb),
    }
}

/// The levels with each tiebreaker replaced by its place in the table. The table rises strictly; a tiebreaker that it
/// does not hold gets the place that it would take. No memory.
pub fn renumber(vt: &Vt, table: &[u64]) -> Vt
    requires rising { IsStrictlyIncreasing table.now }
    ensures { result ≡ renumbered_levels table.now vt.now }
{
    vt.with_places_of(table)
}

/// The key with each tiebreaker replaced by its place in the table, as `renumber` does; an open one stays open. No
/// memory.
pub fn renumber_key(key: &Key, table: &[u64]) -> Key
    requires rising { IsStrictlyIncreasing table.now }
    ensures { result ≡ renumbered_key table.now key.now }
{
    Key {
        domain: renumber(&key.domain, table),
        ts: key.ts,
        tb: match key.tb {
            Some(number) => Some(place_in(table, number)),
            None => None,
        },
    }
}
