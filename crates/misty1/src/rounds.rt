// The rounds, which are the same for both ways through the cipher but for FL and the order of the subkeys.
ghost use Rattle.std.specs.Prelude.{◌≡◌, ◌≤◌};
ghost use Rattle.misty1.specs.Schedule.{K, K', KL};
ghost use Rattle.misty1.specs.Rounds.{Keyed, split as splitting, join as joining, two_rounds as round_pair, rounds, forward_FL, forward_FO, backward_FL, backward_FO};
ghost use Rattle.misty1.specs.Key.{means};
ghost use Rattle.misty1.specs.Sound;

use crate::Misty1;
use crate::functions::{Half, fl, fl_inverse, fo, mix};
use cipher::Cipher;
use std::array;

/// A block between rounds: L and R.
type State = (Half, Half);

impl Cipher for Misty1 {
    ghost meaning = { means };

    ghost sound = { λ c. Sound.sound c.key c.fits };

    fn encipher(&self, block: u64) -> u64 {
        join(crypt(&Forward { cipher: self }, split(block)))
    }

    fn decipher(&self, block: u64) -> u64 {
        join(crypt(&Backward { cipher: self }, split(block)))
    }
}

/// L and R of a block, each a pair of words.
fn split(block: u64) -> State
    ensures { result ≡ splitting block }
{
    // `as` on what the mask has cut to sixteen bits; `try_from` would add a case that never comes.
    let [a, b, c, d]: [u16; 4] = array::from_fn(|i| (block >> (48 - 16 * i) & 0xffff) as u16);
    ((a, b), (c, d))
}

/// The block of L and R.
#[tactic(auto, using(crate::proofs::Words::join_code))]
fn join(s: State) -> u64
    ensures { result ≡ joining s }
{
    let ((a, b), (c, d)) = s;
    u64::from(a) << 48 | u64::from(b) << 32 | u64::from(c) << 16 | u64::from(d)
}

/// The word with the number `i` of eight; where `i` is larger than 8, 8 is subtracted.
fn word(words: &[u16; 8], i: usize) -> u16
    ensures { result ≡ K words.now i }
{
    words[i.saturating_sub(1) % 8]
}

impl Misty1 {
    /// K_i.
    fn k(&self, i: usize) -> u16
        ensures { result ≡ K self.now.key i }
    {
        word(&self.key, i)
    }

    /// K'_i.
    #[tactic(auto, using(crate::proofs::Words::subkey_at))]
    fn k_sub(&self, i: usize) -> u16
        requires { 1 ≤ i }
        ensures { result ≡ K' self.now.key i }
    {
        word(&self.subkey, i)
    }

    /// KL_i.
    fn kl(&self, i: usize) -> Half
        requires { i ≤ 11 }
        ensures { result ≡ KL self.now.key i }
    {
        if i % 2 == 1 {
            (self.k((i + 1) / 2), self.k_sub((i + 1) / 2 + 6))
        } else {
            (self.k_sub(i / 2 + 2), self.k(i / 2 + 4))
        }
    }

    /// FO under KO_i and KI_i.
    fn fo(&self, i: usize, x: Half) -> Half
        requires { i ≤ 9 }
        ensures { result ≡ forward_FO self.now.key i x }
    {
        fo(
            x,
            (self.k(i), self.k(i + 2), self.k(i + 7), self.k(i + 4)),
            (self.k_sub(i + 5), self.k_sub(i + 1), self.k_sub(i + 3)),
        )
    }
}

/// One way through a cipher: its FL and its FO, by the number of their subkeys.
///
/// The numbers go from 1 to 10 and from 1 to 8; decryption takes them from 11 and from 9, hence the bounds.
trait Way {
    ghost FL: { Self → Keyed };

    ghost FO: { Self → Keyed };

    fn fl(&self, i: usize, x: Half) -> Half
        requires { i ≤ 11 }
        ensures { result ≡ FL self.now i x };

    fn fo(&self, i: usize, x: Half) -> Half
        requires { i ≤ 9 }
        ensures { result ≡ FO self.now i x };
}

/// Encryption.
#[derive(Drop)]
struct Forward<'a> {
    cipher: &'a Misty1,
}

impl Way for Forward<'_> {
    ghost FL = { λ w. forward_FL w.cipher.now.key };

    ghost FO = { λ w. forward_FO w.cipher.now.key };

    fn fl(&self, i: usize, x: Half) -> Half {
        fl(x, self.cipher.kl(i))
    }

    fn fo(&self, i: usize, x: Half) -> Half {
        self.cipher.fo(i, x)
    }
}

/// Decryption: FL is replaced by its inverse, and the subkeys come in the reversed order.
#[derive(Drop)]
struct Backward<'a> {
    cipher: &'a Misty1,
}

impl Way for Backward<'_> {
    ghost FL = { λ w. backward_FL w.cipher.now.key };

    ghost FO = { λ w. backward_FO w.cipher.now.key };

    fn fl(&self, i: usize, x: Half) -> Half {
        fl_inverse(x, self.cipher.kl(11 - i))
    }

    fn fo(&self, i: usize, x: Half) -> Half {
        self.cipher.fo(9 - i, x)
    }
}

/// The rounds `i` and `i` + 1.
#[tactic(auto, unfolding(crate::specs::Rounds::two_rounds))]
fn two_rounds<W: Way>(way: &W, i: usize, s: State) -> State
    requires { i ≤ 8 }
    ensures { result ≡ round_pair (W.Way.FL way.now) (W.Way.FO way.now) i s }
{
    let right = way.fl(i, s.0);
    let left = mix(way.fl(i + 1, s.1), way.fo(i, right));
    (mix(right, way.fo(i + 1, left)), left)
}

/// Eight rounds and the closing step.
#[tactic(auto, unfolding(crate::specs::Rounds::rounds, crate::specs::Rounds::closing))]
fn crypt<W: Way>(way: &W, s: State) -> State
    ensures { result ≡ rounds (W.Way.FL way.now) (W.Way.FO way.now) s }
{
    // Four calls: a fold over 1, 3, 5 and 7 was tried, and enciphers a sixth slower, since the numbers are then not known
    // where the words of the key are read.
    let s = two_rounds(way, 1, s);
    let s = two_rounds(way, 3, s);
    let s = two_rounds(way, 5, s);
    let s = two_rounds(way, 7, s);
    (way.fl(10, s.1), way.fl(9, s.0))
}
