// What a call writes and what it leaves, and how it counts.
use crate::ciphers::{KEY, misty1};
use crate::sessions::{Seen, begun};
use line::Line;
use line::kind::{Kind, Opening, Sealing};
use line::state::State;
use mode::cbc::Cbc;
use session::Session;
use std::process::Abort;
use std::test::Fail;

fn put_leaves_the_rest<K: Kind + Drop + Copy>(rt: &impl Abort, kind: K) -> Result<(), Fail> {
    let (mut long, mut exact) = ([0xa5; 24], [0xa5; 16]);
    let (mut one, mut other) = (begun(rt, kind, Cbc, 7)?, begun(rt, kind, Cbc, 7)?);
    let puts = (
        one.put(&[0x3c; 16], &mut long),
        other.put(&[0x3c; 16], &mut exact),
    );
    assert_eq!(rt; puts, (Ok(2), Ok(2)));
    assert_ne!(rt; exact, [0xa5; 16]);
    assert_eq!(rt;
        (&long[0..16], &long[16..24]),
        (&exact[0..16], &[0xa5; 8][0..8])
    );
    Ok(())
}

#[test]
fn puts_write_their_blocks_alone(rt: HostRuntime) -> Result<(), Fail> {
    put_leaves_the_rest(&rt, Sealing)?;
    put_leaves_the_rest(&rt, Opening)
}

#[test]
fn ends_write_a_block_or_a_tail_alone(rt: HostRuntime) -> Result<(), Fail> {
    let (mut long, mut exact, mut opened) = ([0xa5; 20], [0xa5; 8], [0xa5; 12]);
    let (mut one, mut other) = (begun(&rt, Sealing, Cbc, 7)?, begun(&rt, Sealing, Cbc, 7)?);
    let mut opening = begun(&rt, Opening, Cbc, 7)?;
    let ends = (
        one.end(b"abc", &mut long),
        other.end(b"abc", &mut exact),
        opening.end(&exact, &mut opened),
    );
    assert_eq!(rt; ends, (Ok((1, 8)), Ok((1, 8)), Ok((1, 3))));
    assert_ne!(rt; exact, [0xa5; 8]);
    assert_eq!(rt;
        (&long[0..8], &long[8..20]),
        (&exact[0..8], &[0xa5; 12][0..12])
    );
    assert_eq!(rt; &opened, b"abc\xa5\xa5\xa5\xa5\xa5\xa5\xa5\xa5\xa5");
    Ok(())
}

fn put_nothing<K: Kind + Drop>(rt: &impl Abort, kind: K) -> Result<(), Fail> {
    let mut output = [0xa5; 16];
    let mut session = begun(rt, kind, Cbc, 7)?;
    assert_eq!(rt; session.put(&[0x3c; 8], &mut output), Ok(1));
    let (before, bytes) = (Seen::of(&session), output);
    assert_eq!(rt;
        (session.put(&[], &mut output), session.put(&[], &mut [])),
        (Ok(0), Ok(0))
    );
    assert_eq!(rt; (Seen::of(&session), output), (before, bytes));
    Ok(())
}

#[test]
fn puts_of_no_blocks_change_nothing(rt: HostRuntime) -> Result<(), Fail> {
    put_nothing(&rt, Sealing)?;
    put_nothing(&rt, Opening)
}

fn abandon_and_begin<K: Kind + Drop>(rt: &impl Abort, kind: K) -> Result<(), Fail> {
    let mut output = [0; 16];
    let mut session = Session::new(kind, misty1(KEY)?, Cbc, 7);
    let new = Seen::of(&session);
    let begin = session.begin(5);
    let begun = Seen::of(&session);
    let put = session.put(&[0x3c; 16], &mut output);
    let register = session.state().register;
    let abandon = session.abandon();
    let abandoned = Seen::of(&session);
    assert_eq!(rt;
        (begin, put, abandon, session.begin(6)),
        (Ok(()), Ok(2), Ok(2), Ok(()))
    );
    assert_ne!(rt; register, 5, "the mode changes its register");
    assert_eq!(rt;
        new,
        Seen {
            state: State {
                register: 0,
                used: 0,
                files: 0,
                blocks: 0,
                running: None,
            },
            slip: None,
        }
    );
    assert_eq!(rt;
        begun,
        Seen {
            state: State {
                register: 5,
                used: 0,
                files: 1,
                blocks: 0,
                running: Some(1),
            },
            slip: Some((7, 1)),
        }
    );
    assert_eq!(rt;
        abandoned,
        Seen {
            state: State {
                register,
                used: 2,
                files: 1,
                blocks: 2,
                running: None,
            },
            slip: None,
        }
    );
    assert_eq!(rt;
        Seen::of(&session),
        Seen {
            state: State {
                register: 6,
                used: 2,
                files: 2,
                blocks: 0,
                running: Some(2),
            },
            slip: Some((7, 2)),
        }
    );
    Ok(())
}

#[test]
fn an_abandoned_file_keeps_its_blocks_used(rt: HostRuntime) -> Result<(), Fail> {
    abandon_and_begin(&rt, Sealing)?;
    abandon_and_begin(&rt, Opening)
}

fn just_made<K: Kind + Drop>(rt: &impl Abort, kind: K) -> Result<(), Fail> {
    let line = Line::new(kind, misty1(KEY)?, Cbc, 7);
    assert_eq!(rt;
        (
            line.number(),
            line.register(),
            line.used(),
            line.files(),
            line.blocks(),
            line.is_running()
        ),
        (7, 0, 0, 0, 0, false)
    );
    Ok(())
}

#[test]
fn a_line_just_made_reads_as_nothing(rt: HostRuntime) -> Result<(), Fail> {
    just_made(&rt, Sealing)?;
    just_made(&rt, Opening)
}
