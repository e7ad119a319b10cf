ghost use Rattle.mode.specs.Modes.{ofb};
ghost use Rattle.mode.specs.Lawful.{ofb_lawful};

use crate::Mode;
use cipher::Cipher;

/// Output feedback: the register, enciphered again and again, is mixed into the blocks.
#[derive(Clone, Copy, Drop)]
pub struct Ofb;

impl Mode for Ofb {
    ghost steps = { λ _. ofb };

    ghost lawful = { λ m. ofb_lawful };

    fn seal<C: Cipher>(&self, cipher: &C, register: u64, block: u64) -> (u64, u64) {
        let mask = cipher.encipher(register);
        (block ^ mask, mask)
    }

    fn open<C: Cipher>(&self, cipher: &C, register: u64, block: u64) -> (u64, u64) {
        // The mask does not depend on the block, so mixing it in once more takes it out.
        self.seal(cipher, register, block)
    }
}
