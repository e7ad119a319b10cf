// Keys of MISTY1, and ciphers made of others.
use cipher::{Cipher, Inverse, Then};
use misty1::{KeyRefused, Misty1};
use std::test::Fail;

/// The key of the example in RFC 2994.
pub const KEY: u128 = 0x00112233445566778899aabbccddeeff;

/// MISTY1 under a key.
pub(crate) fn misty1(key: u128) -> Result<Misty1, Fail> {
    Ok(Misty1::new(&key.to_be_bytes())?)
}

#[test]
fn only_keys_of_sixteen_bytes(rt: HostRuntime) {
    let bytes = [7u8; 24];
    for key in [&bytes[0..0], &bytes[0..15], &bytes[0..17], &bytes[0..24]] {
        let refused = KeyRefused { bytes: key.len() };
        assert_eq!(rt; Misty1::new(key).err(), Some(refused));
        assert_eq!(rt; refused.number(), 43);
    }
    assert!(rt;
        Misty1::new(&bytes[0..16]).is_ok(),
        "sixteen bytes are a key"
    );
}

#[test]
fn inverse_exchanges_both_ways(rt: HostRuntime) -> Result<(), Fail> {
    let plain = 0x0123456789abcdef;
    let sealed = 0x8b1da5f56ab3d07c;
    let inverse = Inverse::new(misty1(KEY)?);
    assert_eq!(rt; inverse.encipher(sealed), plain);
    assert_eq!(rt; inverse.decipher(plain), sealed);
    Ok(())
}

#[test]
fn then_goes_through_both(rt: HostRuntime) -> Result<(), Fail> {
    let plain = 0xfedcba9876543210;
    let (a, b) = (misty1(KEY)?, misty1(1)?);
    let both = Then::new(a, b);
    assert_eq!(rt; both.encipher(plain), b.encipher(a.encipher(plain)));
    assert_ne!(rt;
        both.encipher(plain),
        a.encipher(b.encipher(plain)),
        "the order counts"
    );
    assert_eq!(rt; both.decipher(both.encipher(plain)), plain);
    let none = Then::new(a, Inverse::new(a));
    assert_eq!(rt; none.encipher(plain), plain);
    assert_eq!(rt; none.decipher(plain), plain);
    Ok(())
}
