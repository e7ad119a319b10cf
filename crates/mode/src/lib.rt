// Modes of operation over any cipher, one file a mode, and the pad of a file's last block.
#![tactic(auto)]

// The modes differ in their steps alone, a line or two each: one generic mode would take these as its parameters and say no more.
pub mod cbc;
pub mod cfb;
pub mod ctr;
pub mod ecb;
pub mod ofb;
pub mod padding;

ghost use Rattle.std.specs.Prelude.{◌≡◌};
ghost use Rattle.mode.specs.Steps.{Steps, Lawful};
ghost use Rattle.std.proofs.Common.{rules};

use cipher::Cipher;

/// A mode of operation: a sealing and an opening step over any cipher.
///
/// Each step takes the register and a block, and answers a block and the next register. Neither refuses anything; opening
/// undoes sealing and sealing undoes opening, with the same next register.
pub trait Mode {
    ghost steps: { Self → Steps };

    /// The sealing step.
    fn seal<C: Cipher>(&self, cipher: &C, register: u64, block: u64) -> (u64, u64)
        ensures { result ≡ (steps self.now).sealing (C.Cipher.meaning cipher.now) register block };

    /// The opening step.
    fn open<C: Cipher>(&self, cipher: &C, register: u64, block: u64) -> (u64, u64)
        ensures { result ≡ (steps self.now).opening (C.Cipher.meaning cipher.now) register block };

    ghost lawful: { (m : Self) → Lawful (steps m) };
}

/// A mode that is borrowed takes the steps that it takes where it lies.
impl<M: Mode> Mode for &M {
    ghost steps = { λ m. M.Mode.steps m.now };

    ghost lawful = { Prim.search rules };

    fn seal<C: Cipher>(&self, cipher: &C, register: u64, block: u64) -> (u64, u64) {
        (**self).seal(cipher, register, block)
    }

    fn open<C: Cipher>(&self, cipher: &C, register: u64, block: u64) -> (u64, u64) {
        (**self).open(cipher, register, block)
    }
}
