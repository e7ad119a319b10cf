// Ciphers on blocks of 64 bits: what they mean, the inverse of one, and two in turn.
#![tactic(auto)]

ghost use Rattle.std.specs.Prelude.{◌≡◌};
ghost use Rattle.cipher.specs.Meaning.{Meaning, Sound, inverse, in_turn};
ghost use Rattle.cipher.specs.Combined.{inverse_means, then_means};
ghost use Rattle.std.proofs.Common.{rules};

/// A cipher under a key that is already fixed.
///
/// Its meaning is two functions on blocks, E and D, which undo each other on every block. Neither call refuses anything
/// or alters what the cipher means.
pub trait Cipher {
    ghost meaning: { Self → Meaning };

    /// E of the block.
    fn encipher(&self, block: u64) -> u64
        ensures { result ≡ (meaning self.now).E block };

    /// D of the block.
    fn decipher(&self, block: u64) -> u64
        ensures { result ≡ (meaning self.now).D block };

    ghost sound: { (c : Self) → Sound (meaning c) };
}

/// A cipher that is borrowed means what it means where it lies.
impl<C: Cipher> Cipher for &C {
    ghost meaning = { λ c. C.Cipher.meaning c.now };

    ghost sound = { Prim.search rules };

    fn encipher(&self, block: u64) -> u64 {
        (**self).encipher(block)
    }

    fn decipher(&self, block: u64) -> u64 {
        (**self).decipher(block)
    }
}

/// The inverse of a cipher: E and D exchanged.
#[derive(Clone, Copy, Drop)]
pub struct Inverse<C> {
    cipher: C,
}

impl<C: Cipher> Inverse<C> {
    /// The inverse of `cipher`.
    pub fn new(cipher: C) -> Self
        ensures { inverse_means C.Cipher.meaning result ≡ inverse (C.Cipher.meaning cipher) }
    {
        Inverse { cipher }
    }
}

impl<C: Cipher> Cipher for Inverse<C> {
    ghost meaning = { inverse_means C.Cipher.meaning };

    ghost sound = { Prim.search rules };

    fn encipher(&self, block: u64) -> u64 {
        self.cipher.decipher(block)
    }

    fn decipher(&self, block: u64) -> u64 {
        self.cipher.encipher(block)
    }
}

/// The first cipher, then the second; deciphering undoes them backwards.
#[derive(Clone, Copy, Drop)]
pub struct Then<A, B> {
    first: A,
    second: B,
}

impl<A: Cipher, B: Cipher> Then<A, B> {
    /// `first`, then `second`.
    pub fn new(first: A, second: B) -> Self
        ensures { then_means A.Cipher.meaning B.Cipher.meaning result ≡ in_turn (A.Cipher.meaning first) (B.Cipher.meaning second) }
    {
        Then { first, second }
    }
}

impl<A: Cipher, B: Cipher> Cipher for Then<A, B> {
    ghost meaning = { then_means A.Cipher.meaning B.Cipher.meaning };

    ghost sound = { Prim.search rules };

    fn encipher(&self, block: u64) -> u64 {
        self.second.encipher(self.first.encipher(block))
    }

    fn decipher(&self, block: u64) -> u64 {
        self.first.decipher(self.second.decipher(block))
    }
}
