// The key schedule.
ghost use Rattle.std.specs.Prelude.{◌≡◌, ◌≤◌, length, MatchResult};
ghost use Rattle.block.specs.Block.{number as number_of};
ghost use Rattle.misty1.specs.Schedule.{words_of, subkey_of};
ghost use Rattle.misty1.specs.Key.{refusal, Taken, Refused};

use crate::functions::fi;
use crate::{KeyRefused, Misty1};
use std::array;

impl Misty1 {
    /// MISTY1 under a key of sixteen bytes; a key of any other length is refused.
    pub fn new(key: &[u8]) -> Result<Misty1, KeyRefused>
        ensures { MatchResult result (Taken key.now) (Refused key.now) }
    {
        // The number that the bytes of a key stand for. By rule a helper that loops over the slice, with its list in the contract.
        fn number(bytes: &[u8]) -> u128
            requires { length bytes.now ≤ 16 }
            ensures { result ≡ number_of bytes.now }
        {
            let mut n: u128 = 0;
            for byte in bytes {
                n = n * 256 + u128::from(*byte);
            }
            n
        }

        if key.len() != 16 {
            return Err(KeyRefused { bytes: key.len() });
        }
        let words = split(number(key));
        Ok(Misty1 {
            key: words,
            subkey: mixed(words),
        })
    }
}

impl KeyRefused {
    /// The number of this refusal.
    pub fn number(&self) -> u8
        ensures { result ≡ refusal self.now }
    {
        // A number by rule: refusals are listed by theirs (docs/LINES.md).
        43
    }
}

/// The words of a key.
fn split(n: u128) -> [u16; 8]
    ensures { result ≡ words_of n }
{
    // `as` on what the mask has cut to sixteen bits, as in `rounds::split`.
    array::from_fn(|i| (n >> (112 - 16 * i) & 0xffff) as u16)
}

/// The words of the subkey: each word of the key mixed with the next one.
fn mixed(key: [u16; 8]) -> [u16; 8]
    ensures { result ≡ subkey_of key }
{
    array::from_fn(|i| fi(key[i], key[(i + 1) % 8]))
}
