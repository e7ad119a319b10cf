ghost use Rattle.mode.specs.Modes.{ecb};
ghost use Rattle.std.proofs.Common.{rules};

use crate::Mode;
use cipher::Cipher;

/// Electronic codebook: each block by itself, the register unused.
#[derive(Clone, Copy, Drop)]
pub struct Ecb;

impl Mode for Ecb {
    ghost steps = { λ _. ecb };

    ghost lawful = { Prim.search rules };

    fn seal<C: Cipher>(&self, cipher: &C, register: u64, block: u64) -> (u64, u64) {
        (cipher.encipher(block), register)
    }

    fn open<C: Cipher>(&self, cipher: &C, register: u64, block: u64) -> (u64, u64) {
        (cipher.decipher(block), register)
    }
}
