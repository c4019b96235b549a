//! Which task commits next, by commit_arbiter.

use crate::sending::is_sent;
use commit_arbiter::{Index, least, least_on};
use fractal_vt::{Key, Level, Vt, on_path};
use std::alloc::{AllocError, Global};
use std::test::Fail;

#[test]
fn the_deepest_key_of_a_path_is_least(rt: HostRuntime) -> Result<(), Fail> {
    let path = Vt::new(&[Level { ts: 5, tb: 0 }]).ok_or("one level fits")?;
    let outer = Key::root(5);
    let inner = Key {
        domain: path.copy(),
        ts: 9,
        tb: None,
    };
    let outer_is_on = on_path(&path, &outer);
    assert!(rt; outer_is_on);
    let inner_is_on = on_path(&path, &inner);
    assert!(rt; inner_is_on);
    assert_eq!(rt; least_on(&[outer, inner], &path), Some(1));
    Ok(())
}

#[test]
fn the_first_of_equal_keys_is_least(rt: HostRuntime) {
    assert_eq!(rt; least(&[Key::root(7), Key::root(5), Key::root(5)]), Some(1));
    assert_eq!(rt; least(&[]), None);
}

#[test]
fn a_new_index_is_empty(rt: HostRuntime) -> Result<(), Fail> {
    let index = Index::new(rt.alloc(), 16)?;
    assert!(rt; index.is_empty() && index.first().is_none());
    is_sent(&index);
    Ok(())
}

/// An index of two tasks with one open key: 7 in tile 1, and 8, which came later, in tile 0.
fn two_of_one_key(alloc: Global) -> Result<Index, AllocError> {
    let mut index = Index::new(alloc, 16)?;
    index.insert(&Key::root(5), 1, 0, 7);
    index.insert(&Key::root(5), 0, 3, 8);
    Ok(index)
}

#[test]
fn of_two_equal_open_keys_the_lesser_tile_is_first(rt: HostRuntime) -> Result<(), Fail> {
    let index = two_of_one_key(rt.alloc())?;
    assert_eq!(rt; index.first(), Some(8));
    Ok(())
}

#[test]
fn the_next_is_first_where_the_first_is_removed(rt: HostRuntime) -> Result<(), Fail> {
    let mut index = two_of_one_key(rt.alloc())?;
    assert!(rt; index.remove(8) && !index.remove(9));
    assert_eq!(rt; index.first(), Some(7));
    assert_eq!(rt; (index.len(), index.capacity()), (1, 16));
    Ok(())
}

#[test]
fn an_index_is_renumbered_in_place(rt: HostRuntime) -> Result<(), Fail> {
    let mut index = Index::new(rt.alloc(), 2)?;
    index.insert(&Key::root(5), 0, 0, 5_000_000_000);
    index.renumber(&[3, 8]);
    assert_eq!(rt; index.first(), Some(5_000_000_000));
    Ok(())
}
