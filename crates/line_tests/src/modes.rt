// Each mode over several blocks, in one put and in several, sealed and opened.
use crate::sessions::{Seen, begun};
use line::kind::{Kind, Opening, Sealing};
use mode::Mode;
use mode::cbc::Cbc;
use mode::cfb::Cfb;
use mode::ctr::Ctr;
use mode::ecb::Ecb;
use mode::ofb::Ofb;
use std::process::Abort;
use std::test::Fail;

/// Five blocks, the second and third alike.
const PLAIN: &[u8; 40] = b"one bankfile no.file no.0123 and the end";

/// One put and several give the same bytes and leave the line the same.
fn split<K: Kind + Drop + Copy, M: Mode + Drop + Copy>(
    rt: &impl Abort,
    kind: K,
    mode: M,
    input: &[u8; 40],
) -> Result<[u8; 40], Fail> {
    let mut whole = [0; 40];
    let (mut first, mut second, mut third) = ([0; 8], [0; 16], [0; 16]);
    let (mut one, mut several) = (begun(rt, kind, mode, 7)?, begun(rt, kind, mode, 7)?);
    let put = one.put(input, &mut whole);
    let puts = (
        several.put(&input[0..8], &mut first),
        several.put(&input[8..24], &mut second),
        several.put(&input[24..40], &mut third),
    );
    assert_eq!(rt; (put, puts), (Ok(5), (Ok(1), Ok(2), Ok(2))));
    assert_eq!(rt; Seen::of(&several), Seen::of(&one));
    assert_eq!(rt;
        (&whole[0..8], &whole[8..24], &whole[24..40]),
        (&first[0..8], &second[0..16], &third[0..16])
    );
    Ok(whole)
}

fn comes_back<M: Mode + Drop + Copy>(rt: &impl Abort, mode: M, name: &str) -> Result<(), Fail> {
    let sealed = split(rt, Sealing, mode, PLAIN)?;
    assert_ne!(rt; &sealed, PLAIN, "{name}");
    assert_eq!(rt; &split(rt, Opening, mode, &sealed)?, PLAIN, "{name}");
    Ok(())
}

/// Both lines of a file count the same and leave the same register, before its end and after.
fn counts_alike<M: Mode + Drop + Copy>(rt: &impl Abort, mode: M, name: &str) -> Result<(), Fail> {
    let (mut sealed, mut opened) = ([0; 40], [0; 40]);
    let (mut last, mut tail) = ([0; 8], [0; 8]);
    let (mut sealing, mut opening) = (begun(rt, Sealing, mode, 7)?, begun(rt, Opening, mode, 7)?);
    let puts = (
        sealing.put(PLAIN, &mut sealed),
        opening.put(&sealed, &mut opened),
    );
    assert_eq!(rt; puts, (Ok(5), Ok(5)), "{name}");
    assert_eq!(rt; Seen::of(&opening), Seen::of(&sealing), "{name}");
    let ends = (
        sealing.end(&[1, 2, 3, 4], &mut last),
        opening.end(&last, &mut tail),
    );
    assert_eq!(rt; ends, (Ok((6, 8)), Ok((6, 4))), "{name}");
    assert_eq!(rt; Seen::of(&opening), Seen::of(&sealing), "{name}");
    assert_eq!(rt;
        (&opened, tail),
        (PLAIN, [1, 2, 3, 4, 0, 0, 0, 0]),
        "{name}"
    );
    Ok(())
}

#[test]
fn several_puts_are_as_one(rt: HostRuntime) -> Result<(), Fail> {
    comes_back(&rt, Ecb, "ecb")?;
    comes_back(&rt, Cbc, "cbc")?;
    comes_back(&rt, Cfb, "cfb")?;
    comes_back(&rt, Ofb, "ofb")?;
    comes_back(&rt, Ctr, "ctr")
}

#[test]
fn both_lines_count_alike(rt: HostRuntime) -> Result<(), Fail> {
    counts_alike(&rt, Ecb, "ecb")?;
    counts_alike(&rt, Cbc, "cbc")?;
    counts_alike(&rt, Cfb, "cfb")?;
    counts_alike(&rt, Ofb, "ofb")?;
    counts_alike(&rt, Ctr, "ctr")
}
