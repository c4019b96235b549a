//! Fractal virtual times: the keys by which the machine orders its tasks, and the domains in which they lie. A `Vt`
//! is a list of a few levels in place (an `ArrayVec`), and a `Key` is a domain and one level more, whose tiebreaker
//! may be open. No call takes memory; each costs at most one walk over the levels, and a renumbering a search by
//! halving in its table for each level. The parts that keep keys, the state, what changes it, and the laws stand on it.
#![tactic(auto)]

mod key;
mod laws;
mod level;
mod numbering;
mod order;
mod paths;
mod vt;

pub use key::{Key, as_domain};
pub use laws::{
    cmp_is_total, deeper_is_less, equal_keys_alone, extension_is_greater, numbers_stay_apart,
    open_is_above_numbers, places_are_where_numbers_stand, renumbering_keeps_domains,
    renumbering_keeps_key_order, renumbering_keeps_prefixes, same_depth_by_last_level,
};
pub use level::Level;
pub use numbering::{renumber, renumber_key};
pub use order::cmp;
pub use paths::{is_prefix, on_path, under};
pub use vt::{MAX_LEVELS, Vt};
