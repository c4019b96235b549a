//! The bytes of the guest's data.

ghost use Rattle.std.specs.Prelude.{◌≡◌, ◌+◌, ◌-◌, ◌≤◌, ◌++◌, length, replicate, IfOk};
ghost use Rattle.undo_log.specs.Number.{number_at, after_write, AreBytes, IsAccessible};

use byteorder::{ByteOrder, LittleEndian};
use std::alloc::{AllocError, Global};
use std::marker::Model;

/// The guest's data, seen as its bytes.
#[derive(Drop)]
pub struct Memory {
    bytes: Vec<u8>,
}

impl Model for Memory {
    ghost use Rattle.std.specs.Prelude.{List, ℕ};
    ghost use Rattle.undo_log.specs.Number.{AreBytes};

    ghost Value = { List ℕ };

    ghost view = { λ m. m.bytes.items };

    ghost invariant = { λ m. AreBytes m.bytes.items };
}

impl Memory {
    /// A memory of `size` bytes, which begins with the initial ones, followed by zeros.
    pub fn new(alloc: Global, initial: &[u8], size: u32) -> Result<Self, AllocError>
        requires { length initial.now ≤ size }
        ensures { IfOk result (λ memory. memory ≡ initial.now ++ replicate (size - length initial.now) 0) }
    {
        let mut bytes = Vec::with_capacity(alloc, size as usize)?;
        bytes.extend_from_slice(initial)?;
        bytes.resize(size as usize, 0)?;
        Ok(Memory::from_vec(bytes))
    }

    fn from_vec(bytes: Vec<u8>) -> Self
        ensures { result ≡ bytes.items }
    {
        Memory { bytes }
    }

    /// The bytes.
    pub fn as_slice(&self) -> &[u8]
        ensures bytes { result.now ≡ self.now }
        ensures below_256 { AreBytes self.now }
    {
        self.bytes.as_slice()
    }

    /// The bytes as they stand.
    pub fn into_vec(self) -> Vec<u8>
        ensures { result.items ≡ self }
    {
        self.bytes
    }

    /// The number in `width` bytes from `offset` on, the least byte first.
    ///
    /// The width is 1, 2 or 4, the offset is a multiple of it, and the bytes lie within the data.
    pub fn number(&self, offset: u32, width: u8) -> u32
        requires { IsAccessible (length self.now) offset width }
        ensures value { result ≡ number_at self.now offset width }
        ensures below_256 { AreBytes self.now }
    {
        number_in(self.bytes.as_slice(), offset as usize, width)
    }

    pub(crate) fn write(&mut self, offset: u32, width: u8, value: u32)
        requires { IsAccessible (length self.old) offset width }
        ensures { self.new ≡ after_write self.old offset width value }
    {
        write_in(self.bytes.as_mut_slice(), offset as usize, width, value);
    }
}

/// The number in `width` bytes of a list from `offset` on, the least byte first. Both are as for a memory.
#[inline]
pub fn number_in(bytes: &[u8], offset: usize, width: u8) -> u32
    requires { IsAccessible (length bytes.now) offset width }
    ensures { result ≡ number_at bytes.now offset width }
{
    let (_, rest) = bytes.split_at(offset);
    match width {
        1 => u32::from(rest[0]),
        2 => u32::from(LittleEndian::read_u16(rest)),
        _ => LittleEndian::read_u32(rest),
    }
}

/// Writes the low `width` bytes of a number from `offset` on, the least byte first. Both are as for a memory.
#[inline]
pub fn write_in(bytes: &mut [u8], offset: usize, width: u8, value: u32)
    requires { IsAccessible (length bytes.old) offset width }
    ensures { bytes.new ≡ after_write bytes.old offset width value }
{
    match width {
        1 => bytes[offset] = (value % 0x100) as u8,
        2 => LittleEndian::write_u16(&mut bytes[offset..], (value % 0x1_0000) as u16),
        _ => LittleEndian::write_u32(&mut bytes[offset..], value),
    }
}
