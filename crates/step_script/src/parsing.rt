//! The lines of a script.

ghost use Rattle.std.specs.Prelude.{◌≡◌};
ghost use Rattle.step_script.specs.Grammar.{act_at, act_in, core_in};

use crate::act::Act;
use text_lines::{cut, number_below};

/// The act that a line is.
#[tactic(auto, unfolding(crate::specs::Grammar::act_in))]
pub(crate) fn act_in(line: &[u8], tiles: u32, cores: u32) -> Option<Act>
    ensures { result ≡ act_in tiles cores line.now }
{
    if line == b"commit".as_slice() {
        return Some(Act::Commit);
    }
    if line == b"advance".as_slice() {
        return Some(Act::Advance);
    }
    let (word, places) = cut(line, b' ')?;
    act_at(word, places, tiles, cores)
}

#[tactic(auto, unfolding(crate::specs::Grammar::act_at))]
fn act_at(word: &[u8], places: &[u8], tiles: u32, cores: u32) -> Option<Act>
    ensures { result ≡ act_at tiles cores word.now places.now }
{
    if word == b"dispatch".as_slice() {
        return Some(Act::Dispatch(number_below(places, tiles)?));
    }
    if word == b"step".as_slice() {
        let (tile, core) = core_in(places, tiles, cores)?;
        return Some(Act::Step(tile, core));
    }
    if word == b"take".as_slice() {
        let (tile, core) = core_in(places, tiles, cores)?;
        return Some(Act::Take(tile, core));
    }
    if word == b"give".as_slice() {
        let (tile, core) = core_in(places, tiles, cores)?;
        return Some(Act::Give(tile, core));
    }
    if word == b"abort".as_slice() {
        return Some(Act::Abort(number_below(places, tiles)?));
    }
    if word == b"coalesce".as_slice() {
        return Some(Act::Coalesce(number_below(places, tiles)?));
    }
    if word == b"split".as_slice() {
        return Some(Act::Split(number_below(places, tiles)?));
    }
    None
}

// A tile and one of its cores.
#[tactic(auto, unfolding(crate::specs::Grammar::core_in))]
fn core_in(places: &[u8], tiles: u32, cores: u32) -> Option<(u32, u32)>
    ensures { result ≡ core_in tiles cores places.now }
{
    let (tile, core) = cut(places, b' ')?;
    let tile = number_below(tile, tiles)?;
    let core = number_below(core, cores)?;
    Some((tile, core))
}
