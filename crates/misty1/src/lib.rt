// MISTY1, the block cipher with eight rounds (ISO/IEC 18033-3:2010, 4.3; RFC 2994).
#![tactic(auto)]

ghost use Rattle.std.specs.Prelude.{◌≡◌, ℕ, ◌^◌, ◌<◌, slice_index};
ghost use Rattle.misty1.specs.Schedule.{subkey_of};

mod example;
mod functions;
mod rounds;
mod schedule;
mod tables;

pub use example::published_vector;
pub use tables::{s7, s9};

/// MISTY1 under a key: the words of the key, K_1 to K_8, and those of the subkey, K'_1 to K'_8.
#[derive(Clone, Copy, Drop)]
pub struct Misty1 {
    key: [u16; 8],
    subkey: [u16; 8],
    ghost fits: { (i : ℕ) → slice_index key i < 2 ^ 16 },
    ghost scheduled: { subkey ≡ subkey_of key },
}

/// A key that was refused, since it has not sixteen bytes.
#[derive(Clone, Copy, Drop, PartialEq, Eq, Debug)]
pub struct KeyRefused {
    /// How many bytes it has.
    pub bytes: usize,
}
