//! Records of descriptors, and which calls the limits of a version allow.

use crate::sending::is_sent;
use guest_image::Kind;
use std::test::Fail;
use task_desc::{
    Ctx, Desc, Name, Place, RECORD_BYTES, Spawn, allow, allow_byte, allow_sub, get_desc, put_desc,
};

/// A task at depth 2, both of whose domains are ordered.
const SHALLOW: Desc = Desc {
    name: Name {
        creator: 1,
        index: 2,
    },
    entry: 0x0001_0000,
    ts: 5,
    args: [1, 2, 3],
    hint: 7,
    depth: 2,
    kinds: 3,
};

/// The fields of its record; zeros follow.
static FIELDS: [u8; 36] = [
    0, 0, 1, 0, 5, 0, 0, 0, 1, 0, 0, 0, 2, 0, 0, 0, 3, 0, 0, 0, 7, 0, 0, 0, 1, 0, 0, 0, 2, 0, 0, 0,
    2, 0, 3, 0,
];

#[test]
fn a_descriptor_has_its_fields_in_their_places(rt: HostRuntime) {
    is_sent(&SHALLOW);
    let record = put_desc(&SHALLOW);
    assert!(rt; record.starts_with(&FIELDS) && record.ends_with(&[0; 28]));
}

fn is_read_as(record: &[u8; RECORD_BYTES], desc: &Desc) -> bool {
    match get_desc(record) {
        Some(found) => found == *desc,
        None => false,
    }
}

#[test]
fn a_record_is_read_back(rt: HostRuntime) {
    assert!(rt; is_read_as(&put_desc(&SHALLOW), &SHALLOW));
    let deepest = Desc {
        depth: 16,
        kinds: 0xffff,
        ..SHALLOW
    };
    assert!(rt; is_read_as(&put_desc(&deepest), &deepest));
}

/// The two bytes of the depth, the two of the kinds, and the first and the last byte of the zeros; and whether a record
/// with them is one.
static RECORDS: [([u8; 6], bool); 14] = [
    ([2, 0, 3, 0, 0, 0], true),
    ([2, 0, 7, 0, 0, 0], false),
    ([1, 0, 1, 0, 0, 0], true),
    ([1, 0, 2, 0, 0, 0], false),
    ([0, 0, 0, 0, 0, 0], false),
    ([8, 0, 0xff, 0, 0, 0], true),
    ([8, 0, 0, 1, 0, 0], false),
    ([9, 0, 0, 1, 0, 0], true),
    ([15, 0, 0, 0x80, 0, 0], false),
    ([16, 0, 0xff, 0xff, 0, 0], true),
    ([17, 0, 0, 0, 0, 0], false),
    ([2, 1, 0, 0, 0, 0], false),
    ([2, 0, 3, 0, 1, 0], false),
    ([2, 0, 3, 0, 0, 1], false),
];

#[test]
fn a_record_has_a_depth_of_16_at_most(rt: HostRuntime) {
    for (given, expected) in &RECORDS {
        let mut record = put_desc(&SHALLOW);
        let [low, high, kinds, more_kinds, first, last] = *given;
        record[32] = low;
        record[33] = high;
        record[34] = kinds;
        record[35] = more_kinds;
        record[36] = first;
        record[63] = last;
        assert!(rt; get_desc(&record).is_some() == *expected, "{given:?}");
    }
}

/// A task of an ordered domain inside an unordered one, at timestamp 5, that has made 63 children and no subdomain.
const CTX: Ctx = Ctx {
    version: 1,
    depth: 8,
    own: Kind::Ordered,
    outer: Some(Kind::Unordered),
    ts: 5,
    floor: 3,
    sub: None,
    children: 63,
    bytes: 256,
};

/// A child that is asked for with this timestamp in this domain.
fn child(place: Place, ts: u32) -> Spawn {
    Spawn {
        place,
        entry: 0x0001_0000,
        ts,
        args: [0; 3],
        hint: 0,
    }
}

/// A domain, a timestamp, and the child's timestamp or the trap.
static CALLS: [(Place, u32, Result<u32, u8>); 4] = [
    (Place::Same, 4, Err(10)),
    (Place::Same, 5, Ok(5)),
    (Place::Sub, 5, Err(11)),
    (Place::Super, 5, Ok(0)),
];

#[test]
fn calls_at_their_limits(rt: HostRuntime) {
    for (place, ts, expected) in &CALLS {
        assert!(rt; allow(&CTX, &child(*place, *ts)) == *expected);
    }
}

/// A version, how many children were made, a domain and a timestamp, and the child's timestamp or the trap.
static CHILDREN: [(u16, u32, Place, u32, Result<u32, u8>); 15] = [
    (1, 63, Place::Same, 5, Ok(5)),
    (1, 63, Place::Sub, 9, Ok(9)),
    (1, 63, Place::Super, 5, Ok(0)),
    (1, 64, Place::Same, 5, Err(15)),
    (1, 64, Place::Sub, 9, Err(15)),
    (1, 64, Place::Super, 5, Err(15)),
    (1, 64, Place::Same, 4, Err(10)),
    (2, 64, Place::Same, 5, Ok(5)),
    (2, 255, Place::Same, 5, Ok(5)),
    (2, 255, Place::Sub, 9, Ok(9)),
    (2, 255, Place::Super, 5, Ok(0)),
    (2, 256, Place::Same, 5, Err(15)),
    (2, 256, Place::Sub, 9, Err(15)),
    (2, 256, Place::Super, 5, Err(15)),
    (2, 256, Place::Same, 4, Err(10)),
];

#[test]
fn a_version_gives_the_most_children(rt: HostRuntime) {
    for (version, children, place, ts, expected) in &CHILDREN {
        let ctx = Ctx {
            version: *version,
            children: *children,
            sub: Some(Kind::Ordered),
            ..CTX
        };
        assert!(rt;
            allow(&ctx, &child(*place, *ts)) == *expected,
            "{version} {children}"
        );
    }
}

/// A version, a depth, the kind that is asked for by its number, and the kind of the subdomain or the trap.
static DEPTHS: [(u16, u8, u32, Result<Kind, u8>); 9] = [
    (1, 7, 0, Ok(Kind::Unordered)),
    (1, 7, 1, Ok(Kind::Ordered)),
    (1, 8, 1, Err(14)),
    (1, 8, 2, Err(9)),
    (2, 8, 1, Ok(Kind::Ordered)),
    (2, 15, 0, Ok(Kind::Unordered)),
    (2, 15, 1, Ok(Kind::Ordered)),
    (2, 16, 1, Err(14)),
    (2, 16, 2, Err(9)),
];

#[test]
fn a_version_gives_the_greatest_depth(rt: HostRuntime) {
    for (version, depth, value, expected) in &DEPTHS {
        let ctx = Ctx {
            version: *version,
            depth: *depth,
            ..CTX
        };
        assert!(rt; allow_sub(&ctx, *value) == *expected, "{version} {depth}");
    }
}

/// A version, how many bytes were emitted, and whether one more may be.
static BYTES: [(u16, u32, Result<(), u8>); 4] = [
    (1, 255, Ok(())),
    (1, 256, Err(16)),
    (2, 255, Ok(())),
    (2, 256, Err(16)),
];

#[test]
fn each_version_has_256_bytes(rt: HostRuntime) {
    for (version, bytes, expected) in &BYTES {
        let ctx = Ctx {
            version: *version,
            bytes: *bytes,
            ..CTX
        };
        assert!(rt; allow_byte(&ctx) == *expected, "{version} {bytes}");
    }
}
