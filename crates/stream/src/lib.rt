// Blocks through a mode, one after another: the whole blocks of a buffer, and the last block of a file with its pad.
#![tactic(auto)]

mod block_mode;
pub mod kind;
pub mod last;

ghost use Rattle.std.specs.Prelude.{◌≡◌};
ghost use Rattle.std.specs.List.{flat_map};
ghost use Rattle.block.specs.Block.{bytes_of, blocks_of};
ghost use Rattle.stream.specs.Stream.{step_of, outs, last_register, fitting, overwritten};

use cipher::Cipher;
use mode::Mode;

/// A cipher in a mode, in one direction: what each block of a line goes through.
#[derive(Drop)]
pub struct BlockMode<K, C, M> {
    kind: K,
    cipher: C,
    mode: M,
}

/// The whole blocks of `input` through the step, as `BlockMode::pass` does it, for a cipher and a mode that lie apart.
pub fn pass<C: Cipher, M: Mode>(
    opens: bool,
    cipher: &C,
    mode: &M,
    start: u64,
    input: &[u8],
    output: &mut [u8],
) -> u64
    ensures register { result ≡ last_register (step_of opens (M.Mode.steps mode.now) (C.Cipher.meaning cipher.now)) start (blocks_of (fitting input.now output.old)) }
    ensures out { output.new ≡ overwritten (flat_map bytes_of (outs (step_of opens (M.Mode.steps mode.now) (C.Cipher.meaning cipher.now)) start (blocks_of (fitting input.now output.old)))) output.old }
{
    BlockMode::new(opens, cipher, mode).pass(start, input, output)
}
