// Tails and their pads.
use crate::refusals::end_refused;
use crate::sessions::{Seen, begun};
use line::kind::{Opening, Sealing};
use mode::cbc::Cbc;
use mode::ecb::Ecb;
use mode::{Mode, padding};
use std::process::Abort;
use std::test::Fail;

const BYTES: [u8; 8] = [1, 2, 3, 4, 5, 6, 7, 0x80];

#[test]
fn a_pad_fits_behind_seven_bytes(rt: HostRuntime) {
    assert_eq!(rt; padding::pad(&[]), Some([0x80, 0, 0, 0, 0, 0, 0, 0]));
    assert_eq!(rt;
        padding::pad(&BYTES[0..3]),
        Some([1, 2, 3, 0x80, 0, 0, 0, 0])
    );
    assert_eq!(rt; padding::pad(&BYTES[0..7]), Some(BYTES));
    assert_eq!(rt; padding::pad(&BYTES), None);
}

#[test]
fn a_tail_ends_before_the_last_80(rt: HostRuntime) {
    assert_eq!(rt; padding::tail_length(BYTES), Some(7));
    assert_eq!(rt; padding::tail_length([0x80, 0, 0, 0, 0, 0, 0, 0]), Some(0));
    assert_eq!(rt;
        padding::tail_length([0x80, 0x80, 0, 0, 0, 0, 0, 0]),
        Some(1)
    );
    assert_eq!(rt; padding::tail_length([0, 0, 0, 0x80, 0, 0, 0, 0]), Some(3));
    assert_eq!(rt; padding::tail_length([0; 8]), None);
    assert_eq!(rt; padding::tail_length([0x80, 0, 0, 0, 0, 0, 0, 1]), None);
    assert_eq!(rt; padding::tail_length([1, 2, 3, 0x40, 0, 0, 0, 0]), None);
}

/// Seals one block and a tail, and opens them again.
fn there_and_back(rt: &impl Abort, tail: &[u8]) -> Result<(), Fail> {
    let (mut first, mut last, mut opened, mut found) = ([0; 8], [0; 8], [0; 8], [0xa5; 8]);
    let (mut sealing, mut opening) = (begun(rt, Sealing, Cbc, 7)?, begun(rt, Opening, Cbc, 7)?);
    let puts = (
        sealing.put(&BYTES, &mut first),
        opening.put(&first, &mut opened),
    );
    let ends = (sealing.end(tail, &mut last), opening.end(&last, &mut found));
    let length = tail.len();
    assert_eq!(rt;
        (puts, ends),
        ((Ok(1), Ok(1)), (Ok((2, 8)), Ok((2, length)))),
        "{length} bytes"
    );
    assert_eq!(rt; Seen::of(&opening), Seen::of(&sealing), "{length} bytes");
    assert_eq!(rt; opened, BYTES, "{length} bytes");
    assert!(rt; length < 8, "{length} bytes");
    assert_eq!(rt;
        (&found[0..length], &found[length..8]),
        (tail, &[0xa5; 8][length..8]),
        "{length} bytes"
    );
    Ok(())
}

#[test]
fn tails_of_every_length_come_back(rt: HostRuntime) -> Result<(), Fail> {
    for length in 0..8usize {
        there_and_back(&rt, &BYTES[0..length])?;
    }
    Ok(())
}

/// Opens a block, sealed as the first one of a file, as the last block of another file: it has no pad.
fn no_pad_in<M: Mode + Drop + Copy>(rt: &impl Abort, mode: M, block: [u8; 8]) -> Result<(), Fail> {
    let (mut last, mut opened) = ([0; 8], [0; 8]);
    let (mut sealing, mut opening) = (begun(rt, Sealing, mode, 7)?, begun(rt, Opening, mode, 7)?);
    assert_eq!(rt; sealing.put(&block, &mut last), Ok(1));
    end_refused(rt, &mut opening, &last, 8, 36);
    assert_eq!(rt;
        (opening.put(&last, &mut opened), opened),
        (Ok(1), block),
        "it can be put"
    );
    Ok(())
}

#[test]
fn last_blocks_without_a_pad_are_refused(rt: HostRuntime) -> Result<(), Fail> {
    for block in [
        [0; 8],
        [1, 2, 3, 4, 5, 6, 7, 8],
        [0x80, 0, 0, 0, 0, 0, 0, 1],
        [0x80, 0x81, 0, 0, 0, 0, 0, 0],
        [0xff; 8],
    ] {
        no_pad_in(&rt, Ecb, block)?;
        no_pad_in(&rt, Cbc, block)?;
    }
    Ok(())
}
