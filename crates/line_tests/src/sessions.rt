// Sessions under test.
use crate::ciphers::{KEY, misty1};
use line::kind::Kind;
use line::refusal::Refusal;
use line::state::State;
use misty1::Misty1;
use mode::Mode;
use session::Session;
use std::process::Abort;
use std::test::Fail;

/// What can be read off a session, its line's counts one by one and the numbers of its slip: a refused call leaves both as they were.
#[derive(Clone, Copy, PartialEq, Eq, Debug)]
pub(crate) struct Seen {
    pub(crate) state: State,
    pub(crate) slip: Option<(u8, u16)>,
}

impl Seen {
    pub(crate) fn of<K: Kind + Drop, M: Mode + Drop>(session: &Session<K, Misty1, M>) -> Seen {
        let line = session.line();
        Seen {
            state: State {
                register: line.register(),
                used: line.used(),
                files: line.files(),
                blocks: line.blocks(),
                running: line.is_running().then_some(line.files()),
            },
            slip: session.slip(),
        }
    }
}

/// A call's result with the refusal's number, by which the tests' tables name it.
pub(crate) fn numbered<A>(answer: Result<A, Refusal>) -> Result<A, u8> {
    answer.map_err(Refusal::number)
}

/// A session whose first file has begun, under the key of the tests and with a start value just below the wrap of a counter.
pub(crate) fn begun<K: Kind + Drop, M: Mode + Drop>(
    rt: &impl Abort,
    kind: K,
    mode: M,
    number: u8,
) -> Result<Session<K, Misty1, M>, Fail> {
    let mut session = Session::new(kind, misty1(KEY)?, mode, number);
    assert_eq!(rt; session.begin(0xfffffffffffffffe), Ok(()));
    Ok(session)
}
