ghost use Rattle.mode.specs.Modes.{cfb};
ghost use Rattle.mode.specs.Lawful.{cfb_lawful};

use crate::Mode;
use cipher::Cipher;

/// Cipher feedback, whole blocks: the sealed block before it, enciphered, is mixed into each plain block.
#[derive(Clone, Copy, Drop)]
pub struct Cfb;

impl Mode for Cfb {
    ghost steps = { λ _. cfb };

    ghost lawful = { λ m. cfb_lawful };

    fn seal<C: Cipher>(&self, cipher: &C, register: u64, block: u64) -> (u64, u64) {
        let sealed = block ^ cipher.encipher(register);
        (sealed, sealed)
    }

    fn open<C: Cipher>(&self, cipher: &C, register: u64, block: u64) -> (u64, u64) {
        (block ^ cipher.encipher(register), block)
    }
}
