// Blocks of 64 bits and the eight bytes that they are written as, the first byte the most significant.
#![tactic(auto)]

ghost use Rattle.std.specs.Prelude.{◌≡◌};
ghost use Rattle.block.specs.Block.{number, bytes_of, flip as complement};

/// The block that eight bytes stand for.
pub fn from_bytes(bytes: [u8; 8]) -> u64
    ensures { result ≡ number bytes }
{
    u64::from_be_bytes(bytes)
}

/// The eight bytes of a block.
#[tactic(auto, unfolding(crate::specs::Block::bytes_of))]
pub fn to_bytes(block: u64) -> [u8; 8]
    ensures { result ≡ bytes_of block }
{
    block.to_be_bytes()
}

/// The complement of a block: every bit flipped.
#[tactic(auto, using(crate::proofs::Complement::flip_sum))]
pub fn flip(block: u64) -> u64
    ensures { result ≡ complement block }
{
    !block
}
