//! The lists of run_journal: each is what was put into it.

use crate::sending::is_sent;
use run_journal::{Bytes, Entry, Journal};
use std::test::Fail;
use task_desc::Name;

const ENTRY: Entry = Entry {
    name: Name {
        creator: 0,
        index: 3,
    },
    depth: 1,
    ts: 7,
};

#[test]
fn a_journal_keeps_its_entry(rt: HostRuntime) -> Result<(), Fail> {
    let mut journal = Journal::new(rt.alloc());
    journal.push(ENTRY)?;
    assert_eq!(rt; journal.as_slice().len(), 1);
    assert_eq!(rt; journal.as_slice()[0].name, ENTRY.name);
    is_sent(&journal);
    Ok(())
}

#[test]
fn bytes_go_behind_those_handed_in(rt: HostRuntime) -> Result<(), Fail> {
    let mut bytes = Bytes::from_vec(b"A".to_vec(rt.alloc())?);
    bytes.push(66)?;
    assert_eq!(rt; bytes.as_slice(), b"AB".as_slice());
    is_sent(&bytes);
    Ok(())
}
