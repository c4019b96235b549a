//! Which lines a task touched and wrote, by the filters of line_table.

use crate::sending::is_sent;
use line_table::{
    Exact, Filter, FilterKind, Lines, Signature, lines_agree, noted_is_told, signatures_agree,
};
use std::alloc::{AllocError, Global};
use std::test::Fail;

/// Whether the lines 3, 5 and 4 were touched, and whether they were written.
fn answers<F: Filter>(filter: &F) -> [(bool, bool); 3] {
    [3, 5, 4].map(|line| (filter.touched(line), filter.wrote(line)))
}

/// Loads from the line 3, a store to the line 5 and a load from it.
fn note_all<F: Filter>(filter: &mut F) -> Result<(), AllocError> {
    filter.note(3, false)?;
    filter.note(5, true)?;
    filter.note(3, false)?;
    filter.note(5, false)
}

/// Whether the first filter wrote what the second touched, and the other way round.
fn meetings<F: Filter>(one: &F, two: &F) -> (bool, bool) {
    (one.meets(two), two.meets(one))
}

/// The exact filter of those accesses.
fn exact_writer(alloc: Global) -> Result<Exact, AllocError> {
    let mut filter = Exact::new(alloc);
    note_all(&mut filter)?;
    Ok(filter)
}

/// The signature of those accesses.
fn signature_writer() -> Result<Signature, AllocError> {
    let mut filter = Signature::new();
    note_all(&mut filter)?;
    Ok(filter)
}

/// The signature of a load of a line that is 5 modulo 1,024.
fn signature_reader() -> Signature {
    let mut reader = Signature::new();
    reader.mark(2_048 + 5, false);
    reader
}

const NOTED: [(bool, bool); 3] = [(true, false), (true, true), (false, false)];

#[test]
fn noted_lines_are_touched_and_stores_are_wrote(rt: HostRuntime) -> Result<(), Fail> {
    let mut filter = exact_writer(rt.alloc())?;
    assert_eq!(rt; answers(&filter), NOTED);
    filter.clear();
    assert_eq!(rt; answers(&filter), [(false, false); 3]);
    is_sent(&filter);
    Ok(())
}

#[test]
fn filters_meet_where_one_wrote_what_the_other_touched(rt: HostRuntime) -> Result<(), Fail> {
    let alloc = rt.alloc();
    let filter = exact_writer(alloc)?;
    let mut reader = Exact::new(alloc);
    reader.note(5, false)?;
    reader.note(3, true)?;
    assert_eq!(rt; meetings(&filter, &reader), (true, true));
    Ok(())
}

#[test]
fn filters_that_both_load_a_line_do_not_meet(rt: HostRuntime) -> Result<(), Fail> {
    let alloc = rt.alloc();
    let filter = exact_writer(alloc)?;
    let mut reader = exact_writer(alloc)?;
    reader.clear();
    reader.note(3, false)?;
    assert_eq!(rt; meetings(&filter, &reader), (false, false));
    Ok(())
}

#[test]
fn a_signature_knows_noted_lines(rt: HostRuntime) -> Result<(), Fail> {
    let mut filter = signature_writer()?;
    assert_eq!(rt; answers(&filter), NOTED);
    filter.clear();
    assert_eq!(rt; answers(&filter), [(false, false); 3]);
    signatures_agree();
    is_sent(&filter);
    Ok(())
}

#[test]
fn a_signature_tells_lines_apart_modulo_1024(rt: HostRuntime) -> Result<(), Fail> {
    let filter = signature_writer()?;
    assert!(rt; filter.touched(1_024 + 3));
    assert!(rt; filter.wrote(1_024 * 4_194_303 + 5));
    assert_eq!(rt; meetings(&filter, &signature_reader()), (true, false));
    Ok(())
}

#[test]
fn a_cleared_signature_meets_none_and_its_copy_stays(rt: HostRuntime) -> Result<(), Fail> {
    let mut filter = signature_writer()?;
    let kept = filter;
    filter.clear();
    assert_eq!(rt; meetings(&filter, &signature_reader()), (false, false));
    assert_eq!(rt; meetings(&kept, &signature_reader()), (true, false));
    Ok(())
}

/// Loads and stores, in turn, of the lines 0, 7, 14 and so on up to 1,393, by a filter of this kind.
fn noted_lines(kind: FilterKind) -> Lines {
    let mut lines = Lines::new();
    let mut write = true;
    for place in 0..200 {
        lines.mark(kind, 16, 7 * place, write);
        write = !write;
    }
    lines
}

/// Lines, and whether a Bloom filter of the first two reports them as touched and as written. Line 2,201 has its bits
/// in all banks; each line after it in all but the first bank, in all but the second, and so on; the last has a greater
/// number. Worked out by another program.
static BLOOM: [(u32, bool, bool); 12] = [
    (14, true, true),
    (7, true, false),
    (2_201, true, false),
    (2_241, false, false),
    (2_303, false, false),
    (2_207, false, false),
    (4_030, false, false),
    (2_237, false, false),
    (2_334, false, false),
    (2_954, false, false),
    (2_261, false, false),
    (4_000_000_000, false, false),
];

#[test]
fn a_bloom_filter_asks_eight_banks(rt: HostRuntime) {
    let lines = noted_lines(FilterKind::Bloom);
    for (line, touched, wrote) in &BLOOM {
        assert_eq!(rt; lines.may_touch(*line), *touched, "{line}");
        assert_eq!(rt; lines.may_write(*line), *wrote, "{line}");
    }
}

#[test]
fn other_lines_are_told_apart_modulo_1024(rt: HostRuntime) {
    let lines = noted_lines(FilterKind::Modulo);
    assert!(rt; lines.may_touch(1_024 + 7));
    assert!(rt; !lines.may_write(1_024 + 7));
    assert!(rt; !lines.may_touch(8));
}

#[test]
fn cleared_lines_tell_none(rt: HostRuntime) {
    let mut lines = noted_lines(FilterKind::Bloom);
    lines.clear();
    assert!(rt; !lines.may_touch(14));
    assert_eq!(rt; (lines.kind(), lines.size()), (FilterKind::Modulo, 0));
    noted_is_told();
    lines_agree();
}

/// The kinds of filters.
static KINDS: [FilterKind; 3] = [FilterKind::Modulo, FilterKind::Bloom, FilterKind::Exact];

/// Lines of this kind, of those accesses.
fn lines_writer(kind: FilterKind) -> Result<Lines, AllocError> {
    let mut filter = Lines::of(kind, 16);
    note_all(&mut filter)?;
    Ok(filter)
}

/// The filter with its notes forgotten.
fn cleared<F: Filter>(mut filter: F) -> F {
    filter.clear();
    filter
}

#[test]
fn lines_of_each_kind_are_a_filter(rt: HostRuntime) -> Result<(), Fail> {
    for kind in &KINDS {
        let filter = lines_writer(*kind)?;
        assert_eq!(rt; answers(&filter), NOTED);
        assert!(rt; filter.meets(&filter));
    }
    Ok(())
}

#[test]
fn lines_stay_of_their_kind_where_a_filter_is_cleared(rt: HostRuntime) -> Result<(), Fail> {
    for kind in &KINDS {
        let filter = cleared(lines_writer(*kind)?);
        assert_eq!(rt; answers(&filter), [(false, false); 3]);
        assert_eq!(rt; (filter.kind(), filter.size()), (*kind, 16));
    }
    Ok(())
}

#[test]
fn lines_of_two_kinds_meet_where_one_wrote_what_the_other_touched(
    rt: HostRuntime,
) -> Result<(), Fail> {
    let bits = lines_writer(FilterKind::Modulo)?;
    let mut reader = Lines::of(FilterKind::Exact, 16);
    reader.note(1_024 + 5, false)?;
    assert_eq!(rt; meetings(&bits, &reader), (true, false));
    assert!(rt; lines_writer(FilterKind::Bloom)?.meets(&bits));
    Ok(())
}
