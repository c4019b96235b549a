//! Keys that look like any.

use fractal_vt::{Key, Level, Vt};

/// A number that looks like any, by the golden ratio.
pub(crate) fn scrambled_number(number: u32) -> u32 {
    number.wrapping_mul(0x9E37_79B9)
}

/// A key at one of four depths, with this timestamp.
pub(crate) fn key_at(number: u32, ts: u32) -> Key {
    let mixed = scrambled_number(number);
    let level = Level {
        ts: mixed >> 30,
        tb: (mixed >> 28 & 3) as u64,
    };
    let levels = [level; 3];
    let domain = match Vt::new(&levels[..(mixed >> 26 & 3) as usize]) {
        Some(domain) => domain,
        None => Vt::empty(),
    };
    let tb = if mixed >> 25 & 1 == 0 {
        None
    } else {
        Some(number as u64)
    };
    Key { domain, ts, tb }
}
