// Vectors of MISTY1: those of RFC 2994, and others that an independent library gives, through both kinds of line.
use crate::ciphers::{KEY, misty1};
use line::kind::{Opening, Sealing};
use mode::Mode;
use mode::cbc::Cbc;
use mode::cfb::Cfb;
use mode::ctr::Ctr;
use mode::ecb::Ecb;
use mode::ofb::Ofb;
use session::Session;
use std::process::Abort;
use std::test::Fail;

/// The plain bytes are sealed to the others, which open to them.
fn seals_to<M: Mode + Drop + Copy>(
    rt: &impl Abort,
    mode: M,
    key: u128,
    start: u64,
    plain: &[u8],
    sealed: &[u8],
) -> Result<(), Fail> {
    let (mut there, mut back) = ([0; 32], [0; 32]);
    let length = plain.len();
    assert!(rt; length <= 32);
    let cipher = misty1(key)?;
    let mut sealing = Session::new(Sealing, cipher, mode, 7);
    let mut opening = Session::new(Opening, cipher, mode, 7);
    assert_eq!(rt;
        (sealing.begin(start), opening.begin(start)),
        (Ok(()), Ok(()))
    );
    assert_eq!(rt; sealing.put(plain, &mut there), Ok(length / 8));
    assert_eq!(rt; opening.put(sealed, &mut back), Ok(length / 8));
    assert_eq!(rt; (&there[0..length], &back[0..length]), (sealed, plain));
    Ok(())
}

#[test]
fn published_blocks(rt: HostRuntime) -> Result<(), Fail> {
    seals_to(
        &rt,
        Ecb,
        KEY,
        0,
        b"\x01\x23\x45\x67\x89\xab\xcd\xef",
        b"\x8b\x1d\xa5\xf5\x6a\xb3\xd0\x7c",
    )?;
    seals_to(
        &rt,
        Ecb,
        KEY,
        0,
        b"\xfe\xdc\xba\x98\x76\x54\x32\x10",
        b"\x04\xb6\x82\x40\xb1\x3b\xe9\x5d",
    )
}

#[test]
fn published_cbc(rt: HostRuntime) -> Result<(), Fail> {
    let plain = b"\x01\x23\x45\x67\x89\xab\xcd\xef\xfe\xdc\xba\x98\x76\x54\x32\x10";
    let sealed = b"\x46\x1c\x1e\x87\x9c\x18\xc2\x7f\xb9\xad\xf2\xd8\x0c\x89\x03\x1f";
    seals_to(&rt, Cbc, KEY, 0x0102030405060708, plain, sealed)
}

#[test]
fn ecb_and_cbc(rt: HostRuntime) -> Result<(), Fail> {
    let plain =
        b"\x76\xb5\x1a\xe5\x9b\xc3\x32\xf3\x10\xbd\x36\xfe\xed\xd7\x0c\xc2\x56\xdd\xe9\x80\xf4\x9a\xae\xae\x5c\x00\xb1\xe4\xc7\x25\x11\x69";
    let sealed =
        b"\x29\xc1\x87\x2f\x2d\xee\xff\xed\x12\x4d\x27\x8f\x42\x2b\x9a\x69\x71\xbb\x81\x69\xdd\x16\xcc\xb1\xff\x31\x53\x82\x2d\x76\xc3\x59";
    seals_to(
        &rt,
        Ecb,
        0xab322c3bd558d59d625eb9aeb6dcbaba,
        0xaa332d3bd458d49d,
        plain,
        sealed,
    )?;
    let plain =
        b"\x5b\x64\x71\x23\x44\xd8\xc0\x9c\x5a\xf3\x27\x40\x81\x14\x2e\x57\x5e\x2c\xa4\x72\xc2\xf0\xd6\x6b\x16\x42\xa4\xc3\xcf\xc6\x97\x79";
    let sealed =
        b"\x30\x27\x47\x0d\xe8\xec\xbd\xcf\x13\x26\x2e\xa1\x3b\x0e\xca\x65\xee\x12\x87\x63\x20\xd5\x5b\xf8\xa4\x13\x3b\xe7\x72\xf9\x64\x10";
    seals_to(
        &rt,
        Cbc,
        0x6df4d3ab08dccee5fd7af26237582f23,
        0x6cf4d3ab09dccee4,
        plain,
        sealed,
    )
}

#[test]
fn cfb_and_ofb(rt: HostRuntime) -> Result<(), Fail> {
    let plain =
        b"\x07\x82\x23\x25\xd0\xd6\x4b\x03\xa0\xfe\x10\x63\xca\x9a\x8b\xba\x10\x41\x8d\xeb\x8c\xb2\xbb\x65\x6a\xff\xec\x6d\x17\xa2\xbd\x86";
    let sealed =
        b"\xcd\xe3\xbf\xec\x76\x2a\xca\xae\x3a\x74\xad\x31\x4a\xa8\xb2\x93\x44\xef\xda\x0b\xf5\x35\xf9\xf7\x47\xf2\x5c\x56\xda\x21\xb4\x33";
    seals_to(
        &rt,
        Cfb,
        0x32e064ba2f29e931406119b302152986,
        0x32e164ba2f29e931,
        plain,
        sealed,
    )?;
    let plain =
        b"\x5d\xba\x53\x49\x0a\x5f\x13\x8a\x9a\xd5\xb9\xe6\xbf\x07\xa2\x0f\x73\xee\x06\x19\x36\x7f\x43\x36\x09\x64\xc1\x17\xf6\xca\xa9\x1d";
    let sealed =
        b"\x04\x0d\xac\x29\xd6\xeb\xb4\xb4\xc5\xd5\x9b\xfe\x1e\x71\x86\x43\x87\xaf\xeb\xdd\xde\x64\x5b\x9b\xcb\x3a\x66\x6f\xcd\xd3\xb0\x2b";
    seals_to(
        &rt,
        Ofb,
        0x5e7a0bf2d046158a83c8bc89dcf1bfd3,
        0x5e7b0bf2d146148b,
        plain,
        sealed,
    )
}

#[test]
fn ctr_past_the_wrap(rt: HostRuntime) -> Result<(), Fail> {
    let plain =
        b"\x1b\x20\xd9\xc8\x78\x45\x06\x1a\x6a\xe3\x5a\x52\x05\x5a\x23\x29\x93\x42\x45\x3e\x5d\xa0\x14\xe7\x28\x0a\xe5\xab\x7c\x70\xb7\x1f";
    let sealed =
        b"\xda\xcc\xc0\x67\x52\x5f\x5a\x1f\xb8\xc7\x12\x45\xeb\x1c\x6c\x42\xf5\xcf\x31\xd6\x09\xa8\x86\x3a\xf3\x13\x9c\xd2\xaf\x95\xb5\xc0";
    seals_to(
        &rt,
        Ctr,
        0xcbef07ad83a7f7b9cb16fdabdf57cd64,
        0xfffffffffffffffe,
        plain,
        sealed,
    )
}
