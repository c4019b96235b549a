//! A line and its parts, by text_lines.

use std::test::Fail;
use text_lines::{behind, cut, field, next_line, number, number_below};

#[test]
fn a_text_is_cut_behind_its_first_line(rt: HostRuntime) -> Result<(), Fail> {
    let (line, rest) = next_line(b"12 7\nend").ok_or("no line")?;
    assert_eq!(rt; line, b"12 7".as_slice());
    assert_eq!(rt; rest, b"end".as_slice());
    Ok(())
}

#[test]
fn a_field_is_the_number_before_a_mark(rt: HostRuntime) -> Result<(), Fail> {
    let (value, left) = field(b"12 7", b' ').ok_or("no field")?;
    assert_eq!(rt; value, 12);
    assert_eq!(rt; left, b"7".as_slice());
    Ok(())
}

#[test]
fn a_number_has_no_leading_zero_and_is_below_its_bound(rt: HostRuntime) {
    assert_eq!(rt; number(b"7"), Some(7));
    assert!(rt; number(b"07").is_none());
    assert_eq!(rt; number_below(b"7", 7), None);
}

#[test]
fn a_front_is_dropped_and_a_mark_that_is_missing_cuts_nothing(rt: HostRuntime) {
    assert_eq!(rt; behind(b"end", b"en"), Some(b"d".as_slice()));
    assert!(rt; cut(b"end", b' ').is_none());
}
