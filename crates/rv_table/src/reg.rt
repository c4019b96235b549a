//! Registers.

ghost use Rattle.std.specs.Prelude.{◌≡◌, ℕ, ◌<◌, ◌==◌, List, length, slice_index, replicate, Some, None, SomeIff};
ghost use Rattle.std.specs.Prelude.{if◌then◌else◌};
ghost use Rattle.rv_table.specs.Regs.{set_word};

use std::marker::Model;

/// The number of a register, 0 to 31.
#[derive(Clone, Copy, Debug, PartialEq, Eq)]
pub struct Reg {
    number: u8,
}

impl Model for Reg {
    ghost Value = { ℕ };

    ghost view = { λ r. r.number };

    ghost invariant = { λ r. r.number < 32 };

    ghost inverse = { λ n. record { number = n } };
}

impl Reg {
    /// The register of a number: none exactly above 31.
    pub fn new(number: u8) -> Option<Reg>
        ensures { SomeIff result (number < 32) number }
    {
        if number < 32 {
            Some(Reg { number })
        } else {
            None
        }
    }

    /// Its number, 0 to 31.
    pub fn number(&self) -> u8
        ensures value { result ≡ self.now }
        ensures small { result < 32 }
    {
        self.number
    }

    /// This register as one that can be written: None exactly for `x0`.
    pub fn target(self) -> Option<Target>
        ensures { result ≡ (if self == 0 then None else Some self) }
    {
        if self.number == 0 {
            None
        } else {
            Some(Target {
                number: self.number,
            })
        }
    }
}

/// The number of a register that can be written, 1 to 31.
#[derive(Clone, Copy, Debug, PartialEq, Eq)]
pub struct Target {
    number: u8,
}

impl Model for Target {
    ghost Value = { ℕ };

    ghost view = { λ r. r.number };

    ghost invariant = { λ r. (0 < r.number) × (r.number < 32) };

    ghost inverse = { λ n. record { number = n } };
}

impl Target {
    /// This register as one to read.
    pub fn reg(self) -> Reg
        ensures { result ≡ self }
    {
        Reg {
            number: self.number,
        }
    }
}

/// The 32 registers of a core, each a word. `x0` is always 0.
#[derive(Clone, Copy, Debug, PartialEq, Eq)]
pub struct Regs {
    words: [u32; 32],
}

impl Model for Regs {
    ghost Value = { List ℕ };

    ghost view = { λ r. r.words };

    ghost invariant = { λ r. slice_index r.words 0 ≡ 0 };

    ghost inverse = { λ ws. record { words = ws } };
}

impl Regs {
    /// All registers 0.
    pub fn zero() -> Regs
        ensures { result ≡ replicate 32 0 }
    {
        Regs { words: [0; 32] }
    }

    /// The word in a register: 0 for `x0`.
    pub fn get(&self, reg: Reg) -> u32
        ensures value { result ≡ slice_index self.now reg }
        ensures zero { reg ≡ 0 → result ≡ 0 }
        ensures len { length self.now ≡ 32 }
    {
        self.words[reg.number() as usize]
    }

    /// Writes a word to a register. A write to `x0` is dropped.
    pub fn set(&mut self, reg: Reg, value: u32)
        ensures { self.new ≡ set_word self.old reg value }
    {
        if reg.number() != 0 {
            self.words[reg.number() as usize] = value;
        }
    }

    /// Writes a word to a register that can be written.
    pub fn put(&mut self, rd: Target, value: u32)
        ensures { self.new ≡ set_word self.old rd value }
    {
        self.words[rd.number as usize] = value;
    }

    /// Whether a register has 0, as `x0` always has.
    pub fn is_zero(&self, reg: Reg) -> bool
        ensures { result ≡ (slice_index self.now reg == slice_index self.now 0) }
    {
        self.words[reg.number() as usize] == 0
    }
}
