// The example of RFC 2994, computed.
ghost use Rattle.std.specs.Prelude.{◌≡◌};
ghost use Rattle.misty1.specs.Example.{ExampleSubkey, ExampleEntries, example_enciphered};

use crate::Misty1;
use cipher::Cipher;

/// The blocks 0123456789abcdef and fedcba9876543210, enciphered under the key 00112233445566778899aabbccddeeff.
pub fn published_vector() -> (u64, u64)
    ensures defined { result ≡ example_enciphered }
    ensures published { result ≡ (0x8b1da5f56ab3d07c, 0x04b68240b13be95d) }
    ensures subkey { ExampleSubkey }
    ensures entries { ExampleEntries }
{
    let key = b"\x00\x11\x22\x33\x44\x55\x66\x77\x88\x99\xaa\xbb\xcc\xdd\xee\xff";
    let cipher = Misty1::new(key).unwrap();
    (
        cipher.encipher(0x0123456789abcdef),
        cipher.encipher(0xfedcba9876543210),
    )
}
