// The pay file of the walkthrough, and what it is sealed with.

/// The key of the cipher.
pub const KEY: [u8; 16] = *b"\x00\x11\x22\x33\x44\x55\x66\x77\x88\x99\xaa\xbb\xcc\xdd\xee\xff";

/// The number of the lines.
pub const NUMBER: u8 = 7;

/// The start value of the file.
pub const START: u64 = 0x0102030405060708;

/// The file: five blocks, and a tail of three bytes.
pub const FILE: [u8; 43] = *b"worker=1042 hours=3850 rate=1495 pay=57558\n";

/// The bytes of the file's whole blocks.
pub const BODY: usize = 40;
