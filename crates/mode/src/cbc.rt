ghost use Rattle.mode.specs.Modes.{cbc};
ghost use Rattle.mode.specs.Lawful.{cbc_lawful};

use crate::Mode;
use cipher::Cipher;

/// Cipher block chaining: each plain block is mixed with the sealed block before it.
#[derive(Clone, Copy, Drop)]
pub struct Cbc;

impl Mode for Cbc {
    ghost steps = { λ _. cbc };

    ghost lawful = { λ m. cbc_lawful };

    fn seal<C: Cipher>(&self, cipher: &C, register: u64, block: u64) -> (u64, u64) {
        let sealed = cipher.encipher(block ^ register);
        (sealed, sealed)
    }

    fn open<C: Cipher>(&self, cipher: &C, register: u64, block: u64) -> (u64, u64) {
        (cipher.decipher(block) ^ register, block)
    }
}
