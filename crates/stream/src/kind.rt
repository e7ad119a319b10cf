// The two kinds of line: which way blocks go through a mode.
ghost use Rattle.std.specs.Prelude.{◌≡◌, Bool, true, false};
ghost use Rattle.stream.specs.Stream.{step_through, last_of};

use crate::BlockMode;
use crate::last::{Last, opened_last, sealed_last};
use cipher::Cipher;
use mode::Mode;

/// Which way a line goes.
///
/// A kind that says no more than whether it opens has the steps that follow from that.
pub trait Kind {
    /// Whether it opens; where it does not, it seals.
    ghost opening: { Self → Bool };

    fn opens(&self) -> bool
        ensures { result ≡ opening self.now };

    /// The mode's step in this direction.
    fn step<C: Cipher, M: Mode>(
        through: &BlockMode<Self, C, M>,
        register: u64,
        block: u64,
    ) -> (u64, u64)
    where
        Self: Sized,
        ensures { result ≡ step_through opening M.Mode.steps C.Cipher.meaning through.now register block }
    {
        if through.kind.opens() {
            through.mode.open(&through.cipher, register, block)
        } else {
            through.mode.seal(&through.cipher, register, block)
        }
    }

    /// A file's last block through the step; none where `input` is no tail, or no block.
    #[tactic(auto, unfolding(crate::specs::Stream::last_of))]
    fn last_block<C: Cipher, M: Mode>(
        through: &BlockMode<Self, C, M>,
        register: u64,
        input: &[u8],
    ) -> Option<Last>
    where
        Self: Sized,
        ensures { result ≡ last_of (opening through.now.kind) (step_through opening M.Mode.steps C.Cipher.meaning through.now) register input.now }
    {
        if through.kind.opens() {
            opened_last(through, register, input)
        } else {
            sealed_last(through, register, input)
        }
    }
}

/// The kind of a line that seals.
#[derive(Clone, Copy)]
pub struct Sealing;

/// The kind of a line that opens.
#[derive(Clone, Copy)]
pub struct Opening;

impl Kind for Sealing {
    ghost opening = { λ _. false };

    fn opens(&self) -> bool {
        false
    }

    fn step<C: Cipher, M: Mode>(
        through: &BlockMode<Sealing, C, M>,
        register: u64,
        plain: u64,
    ) -> (u64, u64) {
        through.mode.seal(&through.cipher, register, plain)
    }

    #[tactic(auto, unfolding(crate::specs::Stream::last_of))]
    fn last_block<C: Cipher, M: Mode>(
        through: &BlockMode<Sealing, C, M>,
        register: u64,
        tail: &[u8],
    ) -> Option<Last> {
        sealed_last(through, register, tail)
    }
}

impl Kind for Opening {
    ghost opening = { λ _. true };

    fn opens(&self) -> bool {
        true
    }

    fn step<C: Cipher, M: Mode>(
        through: &BlockMode<Opening, C, M>,
        register: u64,
        sealed: u64,
    ) -> (u64, u64) {
        through.mode.open(&through.cipher, register, sealed)
    }

    #[tactic(auto, unfolding(crate::specs::Stream::last_of))]
    fn last_block<C: Cipher, M: Mode>(
        through: &BlockMode<Opening, C, M>,
        register: u64,
        last: &[u8],
    ) -> Option<Last> {
        opened_last(through, register, last)
    }
}

/// A kind that is chosen while a program runs: whether it opens.
impl Kind for bool {
    ghost opening = { λ opens. opens };

    fn opens(&self) -> bool {
        *self
    }
}
