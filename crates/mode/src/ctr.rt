ghost use Rattle.mode.specs.Modes.{ctr};
ghost use Rattle.mode.specs.Lawful.{ctr_lawful};

use crate::Mode;
use cipher::Cipher;

/// Counter: the register counts up from the start value, and its enciphered values are mixed into the blocks.
#[derive(Clone, Copy, Drop)]
pub struct Ctr;

impl Mode for Ctr {
    ghost steps = { λ _. ctr };

    ghost lawful = { λ m. ctr_lawful };

    fn seal<C: Cipher>(&self, cipher: &C, register: u64, block: u64) -> (u64, u64) {
        (block ^ cipher.encipher(register), register.wrapping_add(1))
    }

    fn open<C: Cipher>(&self, cipher: &C, register: u64, block: u64) -> (u64, u64) {
        // The mask does not depend on the block, so mixing it in once more takes it out.
        self.seal(cipher, register, block)
    }
}
