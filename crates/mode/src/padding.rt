// The pad of a file's last block: byte 80 and then zero bytes (padding method 2 of ISO/IEC 9797-1).
ghost use Rattle.std.specs.Prelude.{◌≡◌};
ghost use Rattle.mode.specs.Pad.{pad as pad_of, tail_length as tail_length_of};

/// The bytes of a block.
const BLOCK: usize = 8;

/// A tail of 0 to 7 bytes with its pad, or nothing where no pad fits.
pub fn pad(tail: &[u8]) -> Option<[u8; 8]>
    ensures { result ≡ pad_of tail.now }
{
    let n = tail.len();
    if n >= BLOCK {
        return None;
    }
    let mut block = [0u8; 8];
    block[..n].copy_from_slice(tail);
    block[n] = 0x80;
    Some(block)
}

/// The length of the tail in an opened last block, or nothing where the block has no pad.
pub fn tail_length(block: [u8; 8]) -> Option<usize>
    ensures { result ≡ tail_length_of block }
{
    let at = block.iter().rposition(|byte| *byte != 0)?;
    (block[at] == 0x80).then_some(at)
}
