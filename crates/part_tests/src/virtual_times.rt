//! Keys and domains, by fractal_vt.

use crate::sending::is_sent;
use fractal_vt::{
    Key, Level, Vt, as_domain, cmp, is_prefix, on_path, renumber, renumber_key, under,
};
use std::cmp::Ordering;
use std::test::Fail;

const LEVEL: Level = Level { ts: 5, tb: 3 };

/// How many levels there are, and whether they fit.
static LENGTHS: [(usize, bool); 3] = [(15, true), (16, true), (17, false)];

const TWO_LEVELS: [Level; 2] = [Level { ts: 5, tb: 70 }, Level { ts: 5, tb: 90 }];

/// The two levels with the places of their tiebreakers in the table.
const PLACES: [Level; 2] = [Level { ts: 5, tb: 1 }, Level { ts: 5, tb: 2 }];

/// An open key in this domain.
fn open_key(domain: &Vt, ts: u32) -> Key {
    Key {
        domain: domain.copy(),
        ts,
        tb: None,
    }
}

#[test]
fn a_deeper_key_of_a_path_comes_first(rt: HostRuntime) -> Result<(), Fail> {
    let path = Vt::new(&[Level { ts: 5, tb: 0 }]).ok_or("one level fits")?;
    let outer = Key::root(5);
    let inner = open_key(&path, 9);
    assert!(rt; on_path(&path, &outer) && on_path(&path, &inner));
    assert_eq!(rt; cmp(&inner, &outer), Ordering::Less);
    Ok(())
}

#[test]
fn a_domain_holds_its_keys_and_no_outer_one(rt: HostRuntime) -> Result<(), Fail> {
    let path = Vt::new(&[Level { ts: 5, tb: 0 }]).ok_or("one level fits")?;
    assert!(rt; under(&path, &open_key(&path, 9)) && !under(&path, &Key::root(5)));
    assert!(rt; is_prefix(&Vt::empty(), &path) && !is_prefix(&path, &Vt::empty()));
    Ok(())
}

#[test]
fn sixteen_levels_fit_and_no_more(rt: HostRuntime) {
    let levels = [LEVEL; 17];
    for (len, fits) in &LENGTHS {
        assert!(rt; *len <= levels.len());
        assert_eq!(rt; Vt::new(&levels[..*len]).is_some(), *fits, "{len} levels");
    }
}

#[test]
fn the_sixteenth_level_is_kept(rt: HostRuntime) -> Result<(), Fail> {
    let mut levels = [LEVEL; 16];
    levels[15].tb = 4;
    let kept = Vt::new(&levels).ok_or("sixteen levels fit")?;
    assert_eq!(rt; kept.levels(), levels.as_slice());
    Ok(())
}

#[test]
fn a_dispatched_key_makes_its_domain(rt: HostRuntime) {
    let mut key = Key::root(5);
    key.tb = Some(3);
    let domain = as_domain(&key);
    assert_eq!(rt; domain.levels(), [LEVEL].as_slice());
    assert!(rt; under(&domain, &key));
    is_sent(&domain);
    is_sent(&key);
}

#[test]
fn a_domain_is_put_over_a_deeper_one(rt: HostRuntime) -> Result<(), Fail> {
    let mut domain = Vt::new(&TWO_LEVELS).ok_or("two levels fit")?;
    domain.put(&Vt::new(&[LEVEL]).ok_or("one level fits")?);
    assert_eq!(rt; domain.levels(), [LEVEL].as_slice());
    Ok(())
}

#[test]
fn a_key_is_put_over_a_root_key(rt: HostRuntime) -> Result<(), Fail> {
    let from = Key {
        domain: Vt::new(&TWO_LEVELS).ok_or("two levels fit")?,
        ts: 7,
        tb: Some(30),
    };
    let mut key = Key::root(5);
    key.put(&from);
    assert_eq!(rt; key.domain.levels(), TWO_LEVELS.as_slice());
    assert_eq!(rt; (key.ts, key.tb), (7, Some(30)));
    Ok(())
}

#[test]
fn tiebreakers_of_a_domain_become_their_places(rt: HostRuntime) -> Result<(), Fail> {
    let domain = Vt::new(&TWO_LEVELS).ok_or("two levels fit")?;
    assert_eq!(rt;
        renumber(&domain, &[30, 70, 90]).levels(),
        PLACES.as_slice()
    );
    Ok(())
}

#[test]
fn an_open_tiebreaker_stays_open(rt: HostRuntime) {
    let key = open_key(&Vt::empty(), 7);
    assert_eq!(rt; renumber_key(&key, &[30, 70, 90]).tb, None);
}

#[test]
fn tiebreakers_of_a_key_become_their_places(rt: HostRuntime) -> Result<(), Fail> {
    let domain = Vt::new(&TWO_LEVELS).ok_or("two levels fit")?;
    let key = Key {
        domain,
        ts: 7,
        tb: Some(30),
    };
    let after = renumber_key(&key, &[30, 70, 90]);
    assert_eq!(rt; after.tb, Some(0));
    assert_eq!(rt; after.domain.levels(), PLACES.as_slice());
    Ok(())
}
