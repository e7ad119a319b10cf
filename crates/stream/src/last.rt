// The last block of a file: a tail and its pad on the way in, a padded block on the way out.
ghost use Rattle.std.specs.Prelude.{◌≡◌};
ghost use Rattle.stream.specs.Stream.{step_of, sealed_last_of, opened_last_of, last_of, last_bytes, fitting, overwritten};

use crate::BlockMode;
use cipher::Cipher;
use mode::{Mode, padding};

/// The last block of a file, after the mode's step.
#[derive(Clone, Copy)]
pub struct Last {
    /// What the step made of it.
    pub block: u64,
    /// The register that the step leaves.
    pub register: u64,
    /// The length of the tail in it; none where an opened block has no pad.
    pub tail: Option<usize>,
}

/// A tail and its pad, sealed; none where the tail is over 7 bytes.
pub(crate) fn sealed_last<K, C: Cipher, M: Mode>(
    through: &BlockMode<K, C, M>,
    register: u64,
    tail: &[u8],
) -> Option<Last>
    ensures { result ≡ sealed_last_of ((M.Mode.steps through.now.mode).sealing (C.Cipher.meaning through.now.cipher)) register tail.now }
{
    let bytes = padding::pad(tail)?;
    let (block, register) = through
        .mode
        .seal(&through.cipher, register, block::from_bytes(bytes));
    Some(Last {
        block,
        register,
        tail: Some(tail.len()),
    })
}

/// The last block, opened; none where it is not 8 bytes.
pub(crate) fn opened_last<K, C: Cipher, M: Mode>(
    through: &BlockMode<K, C, M>,
    register: u64,
    last: &[u8],
) -> Option<Last>
    ensures { result ≡ opened_last_of ((M.Mode.steps through.now.mode).opening (C.Cipher.meaning through.now.cipher)) register last.now }
{
    let [b0, b1, b2, b3, b4, b5, b6, b7] = last else {
        return None;
    };
    let sealed = block::from_bytes([*b0, *b1, *b2, *b3, *b4, *b5, *b6, *b7]);
    let (block, register) = through.mode.open(&through.cipher, register, sealed);
    Some(Last {
        block,
        register,
        tail: padding::tail_length(block::to_bytes(block)),
    })
}

/// A file's last block through the step; none where `input` is no tail, or no block.
pub fn last_block<C: Cipher, M: Mode>(
    opens: bool,
    cipher: &C,
    mode: &M,
    register: u64,
    input: &[u8],
) -> Option<Last>
    ensures { result ≡ last_of opens (step_of opens (M.Mode.steps mode.now) (C.Cipher.meaning cipher.now)) register input.now }
{
    BlockMode::new(opens, cipher, mode).last_block(register, input)
}

/// Writes what the end of a file gives, the sealed block or the tail alone, as far as `output` has room for it. It takes no cipher
/// and no mode.
pub fn write_last(opens: bool, last: Option<Last>, output: &mut [u8])
    ensures { output.new ≡ overwritten (fitting (last_bytes opens last) output.old) output.old }
{
    let Some(last) = last else {
        return;
    };
    let bytes = block::to_bytes(last.block);
    // A number that the flag decides, and not a step: a method of the kind for it would be no plainer.
    let size = if opens { last.tail.unwrap_or(0) } else { 8 };
    let n = size.min(8).min(output.len());
    output[0..n].copy_from_slice(&bytes[0..n]);
}
