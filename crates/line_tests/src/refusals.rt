// Every refusal of a call that needs no long run, and which one wins where several causes hold. A refused call changes nothing.
// Where a test checks the room of its table, that is for the proof: the part then lies within its array.
use crate::ciphers::{KEY, misty1};
use crate::sessions::{Seen, begun, numbered};
use line::kind::{Kind, Opening, Sealing};
use misty1::Misty1;
use mode::Mode;
use mode::ecb::Ecb;
use session::Session;
use session::ends::Ends;
use std::process::Abort;
use std::test::Fail;

// Two functions and not one that is handed the call: `rt check` cannot state a bound over a generic session yet.

/// Puts into an output of `room` bytes, and sees that the put is refused with the number and changes nothing.
pub(crate) fn put_refused<K: Kind + Drop, M: Mode + Drop>(
    rt: &impl Abort,
    session: &mut Session<K, Misty1, M>,
    input: &[u8],
    room: usize,
    number: u8,
) {
    let mut output = [0xa5; 24];
    assert!(rt; room <= 24);
    let before = Seen::of(session);
    assert_eq!(rt;
        numbered(session.put(input, &mut output[0..room])),
        Err(number)
    );
    assert_eq!(rt; (Seen::of(session), output), (before, [0xa5; 24]));
}

/// Ends into an output of `room` bytes, and sees that the end is refused with the number and changes nothing.
pub(crate) fn end_refused<K: Ends + Drop, M: Mode + Drop>(
    rt: &impl Abort,
    session: &mut Session<K, Misty1, M>,
    input: &[u8],
    room: usize,
    number: u8,
) {
    let mut output = [0xa5; 24];
    assert!(rt; room <= 24);
    let before = Seen::of(session);
    assert_eq!(rt;
        numbered(session.end(input, &mut output[0..room])),
        Err(number)
    );
    assert_eq!(rt; (Seen::of(session), output), (before, [0xa5; 24]));
}

/// Begins, and sees that the begin is refused with the number and changes nothing.
pub(crate) fn begin_refused<K: Kind + Drop, M: Mode + Drop>(
    rt: &impl Abort,
    session: &mut Session<K, Misty1, M>,
    number: u8,
) {
    let before = Seen::of(session);
    assert_eq!(rt;
        numbered(session.begin(before.state.register ^ 1)),
        Err(number)
    );
    assert_eq!(rt; Seen::of(session), before);
}

fn puts<K: Kind + Drop>(rt: &impl Abort, kind: K) -> Result<(), Fail> {
    let input = [0x3c; 24];
    let mut session = Session::new(kind, misty1(KEY)?, Ecb, 7);
    for (input, room) in [
        (&input[0..8], 8usize),
        (&input[0..0], 0),
        (&input[0..9], 24),
        (&input[0..9], 4),
        (&input[0..16], 8),
    ] {
        put_refused(rt, &mut session, input, room, 21);
    }
    assert_eq!(rt; session.begin(5), Ok(()));
    for (input, room, number) in [
        (&input[0..9], 24usize, 22u8),
        (&input[0..7], 7, 22),
        (&input[0..9], 4, 22),
        (&input[0..1], 0, 22),
        (&input[0..16], 15, 23),
        (&input[0..8], 0, 23),
    ] {
        put_refused(rt, &mut session, input, room, number);
    }
    begin_refused(rt, &mut session, 11);
    Ok(())
}

#[test]
fn begins_and_puts_refused(rt: HostRuntime) -> Result<(), Fail> {
    puts(&rt, Sealing)?;
    puts(&rt, Opening)
}

/// Ends and abandons with the slip of another session's file, and sees that both are refused with the number and change neither.
fn slip_refused<K: Ends + Drop, L: Kind + Drop>(
    rt: &impl Abort,
    session: &mut Session<K, Misty1, Ecb>,
    other: &mut Session<L, Misty1, Ecb>,
    number: u8,
) {
    let input = [0x3c; 24];
    let (before, lent) = (Seen::of(session), Seen::of(other));
    assert!(rt; lent.state.running.is_some());
    for (input, room) in [
        (&input[0..8], 24usize),
        (&input[0..3], 24),
        (&input[0..8], 7),
        (&input[0..0], 7),
        (&input[0..0], 8),
        (&input[0..9], 0),
    ] {
        let mut output = [0xa5; 24];
        assert!(rt; room <= 24);
        let end = session.end_by(other, input, &mut output[0..room]);
        assert_eq!(rt;
            (end.map(numbered), output),
            (Some(Err(number)), [0xa5; 24])
        );
    }
    assert_eq!(rt; session.abandon_by(other).map(numbered), Some(Err(number)));
    assert_eq!(rt;
        (Seen::of(session), Seen::of(other)),
        (before, lent),
        "the slip was handed back"
    );
}

fn slips<K: Ends + Drop>(rt: &impl Abort, kind: K) -> Result<(), Fail> {
    let mut session = Session::new(kind, misty1(KEY)?, Ecb, 7);
    // Another line's slip of a file with the same number, and a slip of another file of a line with the same number.
    let (mut neighbour, mut twin) = (begun(rt, Sealing, Ecb, 8)?, begun(rt, Opening, Ecb, 7)?);
    assert_eq!(rt; (twin.abandon(), twin.begin(1)), (Ok(0), Ok(())));
    slip_refused(rt, &mut session, &mut neighbour, 31);
    slip_refused(rt, &mut session, &mut twin, 31);
    assert_eq!(rt; session.begin(5), Ok(()));
    slip_refused(rt, &mut session, &mut neighbour, 32);
    slip_refused(rt, &mut session, &mut twin, 32);
    assert_eq!(rt; (twin.slip(), session.slip()), (Some((7, 2)), Some((7, 1))));
    assert_eq!(rt; session.abandon(), Ok(0), "its own slip is taken");
    Ok(())
}

#[test]
fn foreign_slips_refused(rt: HostRuntime) -> Result<(), Fail> {
    slips(&rt, Sealing)?;
    slips(&rt, Opening)
}

#[test]
fn sealing_ends_refused(rt: HostRuntime) -> Result<(), Fail> {
    let input = [0x3c; 24];
    let mut output = [0; 8];
    let mut session = begun(&rt, Sealing, Ecb, 7)?;
    for (input, room, number) in [
        (&input[0..8], 24usize, 33u8),
        (&input[0..9], 8, 33),
        (&input[0..8], 7, 33),
        (&input[0..16], 0, 33),
        (&input[0..7], 7, 34),
        (&input[0..1], 0, 34),
        (&input[0..0], 7, 34),
        (&input[0..0], 8, 35),
    ] {
        end_refused(&rt, &mut session, input, room, number);
    }
    assert_eq!(rt; session.put(&[0x3c; 8], &mut output), Ok(1));
    end_refused(&rt, &mut session, &[0x3c; 8], 8, 33);
    end_refused(&rt, &mut session, &[], 7, 34);
    assert_eq!(rt;
        session.end(&[], &mut output),
        Ok((2, 8)),
        "a block and an empty tail are a file"
    );
    Ok(())
}

#[test]
fn opening_ends_refused(rt: HostRuntime) -> Result<(), Fail> {
    let input = [0x3c; 24];
    let mut output = [0; 8];
    let (no_pad, no_tail) = (sealed(&rt, 0)?, sealed(&rt, 0x8000000000000000)?);
    let mut session = begun(&rt, Opening, Ecb, 7)?;
    for (input, room) in [
        (&input[0..7], 24usize),
        (&input[0..9], 24),
        (&input[0..0], 8),
        (&input[0..16], 8),
        (&input[0..7], 0),
        (&input[0..9], 7),
    ] {
        end_refused(&rt, &mut session, input, room, 33);
    }
    for (last, room, number) in [
        (no_pad, 7usize, 34u8),
        (no_tail, 0, 34),
        (no_pad, 8, 36),
        (no_tail, 8, 35),
    ] {
        end_refused(&rt, &mut session, &last, room, number);
    }
    assert_eq!(rt; session.put(&no_pad, &mut output), Ok(1));
    end_refused(&rt, &mut session, &no_pad, 24, 36);
    assert_eq!(rt;
        session.end(&no_tail, &mut output),
        Ok((2, 0)),
        "a block and an empty tail are a file"
    );
    Ok(())
}

/// A block, sealed under the key of the tests.
fn sealed(rt: &impl Abort, block: u64) -> Result<[u8; 8], Fail> {
    let mut output = [0; 8];
    assert_eq!(rt;
        begun(rt, Sealing, Ecb, 7)?.put(&block::to_bytes(block), &mut output),
        Ok(1)
    );
    Ok(output)
}
