// The limits of a line: 65,535 files, and 1,048,576 blocks, the last of which only an end may use.
use crate::ciphers::{KEY, misty1};
use crate::refusals::{begin_refused, put_refused};
use crate::sessions::{Seen, begun, numbered};
use line::kind::{Kind, Opening, Sealing};
use misty1::Misty1;
use mode::ecb::Ecb;
use session::Session;
use session::ends::Ends;
use std::alloc::Global;
use std::process::Abort;
use std::test::Fail;

/// The bytes of 1,048,576 blocks.
const ALL: usize = 8_388_608;

fn begin_and_abandon<K: Kind + Drop>(
    rt: &impl Abort,
    session: &mut Session<K, Misty1, Ecb>,
    files: u16,
) {
    for _ in 0..files {
        assert_eq!(rt; session.begin(0), Ok(()));
        assert_eq!(rt; session.abandon(), Ok(0));
    }
    assert_eq!(rt; session.state().files, files);
}

fn all_files<K: Kind + Drop>(rt: &impl Abort, kind: K) -> Result<(), Fail> {
    let mut session = Session::new(kind, misty1(KEY)?, Ecb, 7);
    begin_and_abandon(rt, &mut session, 65_534);
    assert_eq!(rt; session.begin(3), Ok(()));
    assert_eq!(rt; session.slip(), Some((7, 65_535)));
    begin_refused(rt, &mut session, 11);
    assert_eq!(rt; session.abandon(), Ok(0));
    begin_refused(rt, &mut session, 13);
    Ok(())
}

#[test]
fn files_run_out(rt: HostRuntime) -> Result<(), Fail> {
    all_files(&rt, Sealing)?;
    all_files(&rt, Opening)
}

/// Puts of too many blocks, where other causes hold too, and then of that one cause alone.
fn too_many<K: Kind + Drop>(
    rt: &impl Abort,
    session: &mut Session<K, Misty1, Ecb>,
    input: &[u8],
    output: &mut [u8],
) {
    assert!(rt; input.len() == ALL + 8);
    let before = Seen::of(session);
    assert_eq!(rt; numbered(session.put(&input[0..ALL + 1], output)), Err(22));
    assert_eq!(rt; numbered(session.put(input, output)), Err(23));
    assert_eq!(rt; numbered(session.put(&input[0..ALL], output)), Err(24));
    assert_eq!(rt; Seen::of(session), before);
    assert!(rt; output.iter().all(|byte| *byte == 0xa5));
}

/// Puts all the blocks of a line's key but the one that is kept for the end.
fn put_all<K: Kind + Drop>(
    rt: &impl Abort,
    session: &mut Session<K, Misty1, Ecb>,
    heap: Global,
) -> Result<(), Fail> {
    let input = vec![in heap; 0u8; ALL + 8]?;
    let mut output = vec![in heap; 0xa5u8; ALL]?;
    too_many(rt, session, &input, &mut output);
    assert!(rt; input.len() == ALL + 8);
    assert_eq!(rt; session.put(&input[0..ALL - 8], &mut output), Ok(1_048_575));
    Ok(())
}

/// Uses all the blocks of a line's key up, and ends with the last one, which writes so many bytes.
fn all_blocks<K: Ends + Drop>(
    rt: &impl Abort,
    session: &mut Session<K, Misty1, Ecb>,
    heap: Global,
    last: &[u8],
    written: usize,
) -> Result<(), Fail> {
    let mut output = [0; 8];
    assert_eq!(rt; session.begin(3), Ok(()));
    put_all(rt, session, heap)?;
    assert_eq!(rt; session.state().used, 1_048_575);
    put_refused(rt, session, &[0; 8], 8, 24);
    put_refused(rt, session, &[0; 8], 7, 23);
    put_refused(rt, session, &[0; 9], 24, 22);
    assert_eq!(rt;
        session.put(&[], &mut output),
        Ok(0),
        "no blocks are never too many"
    );
    begin_refused(rt, session, 11);
    assert_eq!(rt; session.end(last, &mut output), Ok((1_048_576, written)));
    assert_eq!(rt; session.state().used, 1_048_576);
    begin_refused(rt, session, 12);
    put_refused(rt, session, &[0; 8], 8, 21);
    Ok(())
}

#[test]
fn blocks_of_a_sealing_line_run_out(rt: HostRuntime) -> Result<(), Fail> {
    let mut session = Session::new(Sealing, misty1(KEY)?, Ecb, 7);
    all_blocks(&rt, &mut session, rt.alloc(), &[1], 8)
}

#[test]
fn blocks_of_an_opening_line_run_out(rt: HostRuntime) -> Result<(), Fail> {
    let mut last = [0; 8];
    assert_eq!(rt;
        begun(&rt, Sealing, Ecb, 7)?.end(&[1], &mut last),
        Ok((1, 8))
    );
    let mut session = Session::new(Opening, misty1(KEY)?, Ecb, 7);
    all_blocks(&rt, &mut session, rt.alloc(), &last, 1)
}

#[test]
fn retired_key_is_named_before_files(rt: HostRuntime) -> Result<(), Fail> {
    let mut session = Session::new(Sealing, misty1(KEY)?, Ecb, 7);
    begin_and_abandon(&rt, &mut session, 65_534);
    all_blocks(&rt, &mut session, rt.alloc(), &[1], 8)?;
    assert_eq!(rt; session.state().files, 65_535);
    Ok(())
}

#[test]
fn the_last_block_is_kept_for_an_end(rt: HostRuntime) -> Result<(), Fail> {
    let mut last = [0; 8];
    let mut session = Session::new(Sealing, misty1(KEY)?, Ecb, 7);
    assert_eq!(rt; session.begin(3), Ok(()));
    put_all(&rt, &mut session, rt.alloc())?;
    assert_eq!(rt; session.abandon(), Ok(1_048_575));
    assert_eq!(rt; session.begin(4), Ok(()));
    put_refused(&rt, &mut session, &[0; 8], 8, 24);
    assert_eq!(rt; session.end(&[1], &mut last), Ok((1, 8)));
    begin_refused(&rt, &mut session, 12);
    Ok(())
}
