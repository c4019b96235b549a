//! A spilled task as a block keeps it.

ghost use Rattle.std.specs.Prelude.{◌≡◌, ◌+◌, length, true};
ghost use Rattle.task_desc.specs.Record.{IsDesc, fields_of, is_record};
ghost use Rattle.spill_store.specs.SpilledTasks.{open_key, renumbered_spilled};
ghost use Rattle.std.specs.List.Sorted.{IsStrictlyIncreasing};

use fractal_vt::{Key, Vt, renumber};
use std::marker::Model;
use task_desc::{Desc, RECORD_BYTES, get_desc, put_desc};

/// A spilled task as a block keeps it: the record of its descriptor, and its open key, whose domain is the task's.
#[derive(Drop)]
pub(crate) struct Kept {
    bytes: [u8; RECORD_BYTES],
    key: Key,
}

impl Model for Kept {
    ghost use Rattle.spill_store.specs.SpilledTasks.{Spilled, IsKeptRecord};
    ghost use Rattle.task_desc.specs.Record.{fields_of};

    ghost Value = { Spilled };

    ghost view = { λ k. record { desc = fields_of k.bytes; domain = k.key.domain } };

    ghost invariant = { λ k. IsKeptRecord k.bytes k.key };
}

impl Kept {
    pub(crate) fn new(desc: &Desc, domain: &Vt) -> Kept
        requires desc { IsDesc desc.now }
        requires domain { length domain.now + 1 ≡ desc.now.depth }
        ensures { result ≡ record { desc = desc.now; domain = domain.now } }
    {
        Kept {
            bytes: put_desc(desc),
            key: Key {
                domain: domain.copy(),
                ts: desc.ts,
                tb: None,
            },
        }
    }

    /// Its open key.
    pub(crate) fn key(&self) -> &Key
        ensures { result.now ≡ open_key self.now }
    {
        &self.key
    }

    /// Replaces each tiebreaker of its domain by its place in the table.
    pub(crate) fn renumber(&mut self, table: &[u64])
        requires { IsStrictlyIncreasing table.now }
        ensures { self.new ≡ renumbered_spilled table.now self.old }
    {
        self.key.domain = renumber(&self.key.domain, table);
    }

    /// Its descriptor.
    pub(crate) fn desc(&self) -> Desc
        ensures { result ≡ self.now.desc }
    {
        desc_in(&self.bytes)
    }

    /// Its descriptor and its domain.
    pub(crate) fn parts(&self) -> (Desc, Vt)
        ensures value { self.now ≡ record { desc = result.0; domain = result.1 } }
        ensures desc { IsDesc result.0 }
        ensures domain { length result.1 + 1 ≡ result.0.depth }
    {
        match get_desc(&self.bytes) {
            Some(desc) => (desc, self.key.domain.copy()),
            None => unreachable!(),
        }
    }
}

/// The descriptor of a record.
fn desc_in(bytes: &[u8; RECORD_BYTES]) -> Desc
    requires { is_record bytes.now ≡ true }
    ensures { result ≡ fields_of bytes.now }
{
    match get_desc(bytes) {
        Some(desc) => desc,
        None => unreachable!(),
    }
}
