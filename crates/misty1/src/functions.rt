// FL, its inverse, FO and FI. A half of a block, 32 bits, is a pair of words, left and right.
ghost use Rattle.std.specs.Prelude.{◌≡◌};
ghost use Rattle.misty1.specs.Functions.{mix as mixing, FL, FL_inverse, FI, turn as turning, FO};

use crate::tables::{nine, seven};

// By rule a pair and no struct: the standard's functions take and give two words.
/// A half of a block: its left word and its right word.
pub(crate) type Half = (u16, u16);

/// The exclusive or of two halves.
pub(crate) fn mix(x: Half, y: Half) -> Half
    ensures { result ≡ mixing x y }
{
    (x.0 ^ y.0, x.1 ^ y.1)
}

/// FL of a half, under KL.
pub(crate) fn fl(x: Half, kl: Half) -> Half
    ensures { result ≡ FL x kl }
{
    let right = (x.0 & kl.0) ^ x.1;
    (x.0 ^ (right | kl.1), right)
}

/// The inverse of FL.
pub(crate) fn fl_inverse(y: Half, kl: Half) -> Half
    ensures { result ≡ FL_inverse y kl }
{
    let left = y.0 ^ (y.1 | kl.1);
    (left, (left & kl.0) ^ y.1)
}

/// FI of a word, under KI.
pub(crate) fn fi(x: u16, ki: u16) -> u16
    ensures { result ≡ FI x ki }
{
    let r0 = x & 0x7f;
    let r1 = nine(x >> 7) ^ r0;
    let r2 = seven(r0) ^ (r1 & 0x7f) ^ (ki >> 9);
    let r3 = nine(r1 ^ (ki & 0x1ff)) ^ r2;
    (r2 << 9) | r3
}

/// One turn of FO, under a word of KO and a word of KI.
fn turn(x: Half, ko: u16, ki: u16) -> Half
    ensures { result ≡ turning x ko ki }
{
    (x.1, fi(x.0 ^ ko, ki) ^ x.1)
}

/// FO of a half, under KO and KI.
pub(crate) fn fo(x: Half, ko: (u16, u16, u16, u16), ki: (u16, u16, u16)) -> Half
    ensures { result ≡ FO x ko ki }
{
    let y = turn(turn(turn(x, ko.0, ki.0), ko.1, ki.1), ko.2, ki.2);
    (y.0 ^ ko.3, y.1)
}
