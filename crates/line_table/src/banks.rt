//! Four banks of 256 bits in one row: the bits that stand for half of a line's hashes.

ghost use Rattle.std.specs.Prelude.{◌≡◌, List, ◌++◌};
ghost use Rattle.line_table.specs.Note.{Note};
ghost use Rattle.line_table.specs.Signature.{IsSignature};
ghost use Rattle.line_table.specs.Banks.{notes_in_banks, touched_in_banks, wrote_in_banks};

use crate::{Filter, Signature};

/// Notes an access in each bank, which is a store if `write` is true.
pub fn mark_banks(signature: &mut Signature, half: u32, write: bool)
    ensures { (notes : List Note) → IsSignature signature.old notes
        → IsSignature signature.new (notes ++ notes_in_banks half write) }
{
    signature.mark(half % 256, write);
    signature.mark(256 + half / 256 % 256, write);
    signature.mark(512 + half / 65_536 % 256, write);
    signature.mark(768 + half / 16_777_216 % 256, write);
}

/// Whether the bits of all banks are set among those of touches.
pub fn touched_in_banks(signature: &Signature, half: u32) -> bool
    ensures { result ≡ touched_in_banks signature.now half }
{
    signature.touched(half % 256)
        && signature.touched(256 + half / 256 % 256)
        && signature.touched(512 + half / 65_536 % 256)
        && signature.touched(768 + half / 16_777_216 % 256)
}

/// Whether the bits of all banks are set among those of writes.
pub fn wrote_in_banks(signature: &Signature, half: u32) -> bool
    ensures { result ≡ wrote_in_banks signature.now half }
{
    signature.wrote(half % 256)
        && signature.wrote(256 + half / 256 % 256)
        && signature.wrote(512 + half / 65_536 % 256)
        && signature.wrote(768 + half / 16_777_216 % 256)
}
