// The pay file through a line: sealed by one, opened by another.
ghost use Rattle.std.specs.Prelude.{◌≡◌, true, None, IfOk};
ghost use Rattle.session.specs.Slips.{owed};

use crate::pay::{BODY, FILE, NUMBER, START};
use crate::trouble::Trouble;
use line::kind::{Opening, Sealing};
use line::refusal::Refusal;
use line::state::State;
use misty1::Misty1;
use mode::Mode;
use session::Session;
use session::ends::Ends;

/// What a line made of a file.
#[derive(Clone, Copy)]
pub struct Passage<'a> {
    /// The numbers of the slip, its line and its file.
    pub slip: (u8, u16),
    pub begun: State,
    /// The blocks that the put answered.
    pub taken: usize,
    pub put: State,
    pub body: [u8; BODY],
    /// The blocks of the file, which the end answered.
    pub blocks: u32,
    pub ended: State,
    /// The bytes that the end wrote.
    pub last: &'a [u8],
}

/// A file that was carried through both lines.
#[derive(Clone, Copy)]
pub struct Carried<'a> {
    pub sealed: Passage<'a>,
    pub opened: Passage<'a>,
}

/// Takes a file through a line: its whole blocks, and then its tail or its last block, whose end writes into `room`. No file runs on
/// the session afterwards: one that could not be ended is given up.
pub(crate) fn pass<'a, K: Ends + Drop, M: Mode + Drop>(
    session: &mut Session<K, Misty1, M>,
    whole: &[u8],
    last: &[u8],
    room: &'a mut [u8; 8],
) -> Result<Passage<'a>, Trouble>
    ensures { owed session.new.line ≡ None }
{
    // Ends the file that it began, unless a call is refused.
    fn through<'a, K: Ends + Drop, M: Mode + Drop>(
        session: &mut Session<K, Misty1, M>,
        whole: &[u8],
        last: &[u8],
        room: &'a mut [u8; 8],
    ) -> Result<Passage<'a>, Refusal>
        ensures { IfOk result (λ _. owed session.new.line ≡ None) }
    {
        let mut body = [0; BODY];
        session.begin(START)?;
        let (slip, begun) = (session.slip().unwrap(), session.state());
        let taken = session.put(whole, &mut body)?;
        let put = session.state();
        let (blocks, written) = session.end(last, room)?;
        Ok(Passage {
            slip,
            begun,
            taken,
            put,
            body,
            blocks,
            ended: session.state(),
            last: &room[0..written.min(8)],
        })
    }

    let passage = through(session, whole, last, room);
    give_up(session);
    Ok(passage?)
}

/// Abandons the file that runs on a session, if one does.
pub(crate) fn give_up<K: Ends + Drop, M: Mode + Drop>(session: &mut Session<K, Misty1, M>)
    ensures { owed session.new.line ≡ None }
{
    if session.slip().is_some() {
        session.abandon().unwrap();
    }
}

/// Seals the pay file on a line just made, and opens what came out on another. The ends write into what is lent, so that nothing here
/// can fail for want of memory.
pub(crate) fn carry<'a, M: Mode + Copy>(
    cipher: Misty1,
    mode: M,
    sealed_end: &'a mut [u8; 8],
    opened_end: &'a mut [u8; 8],
) -> Result<Carried<'a>, Trouble> {
    let (whole, tail) = FILE.split_at(BODY);
    let sealing = &mut Session::new(Sealing, cipher, mode, NUMBER);
    let sealed = pass(sealing, whole, tail, sealed_end)?;
    let opening = &mut Session::new(Opening, cipher, mode, NUMBER);
    let opened = pass(opening, &sealed.body, sealed.last, opened_end)?;
    Ok(Carried { sealed, opened })
}

impl Carried<'_> {
    /// Whether the opening line wrote these whole blocks and this tail.
    pub(crate) fn opened_to(&self, body: &[u8], tail: &[u8]) -> bool
        ensures body { result ≡ true → self.now.opened.body ≡ body.now }
        ensures tail { result ≡ true → self.now.opened.last.now ≡ tail.now }
    {
        self.opened.body.as_slice() == body && self.opened.last == tail
    }

    /// Whether both lines stood alike after each call.
    pub(crate) fn stood_alike(&self) -> bool
        ensures begun { result ≡ true → self.now.sealed.begun ≡ self.now.opened.begun }
        ensures put { result ≡ true → self.now.sealed.put ≡ self.now.opened.put }
        ensures ended { result ≡ true → self.now.sealed.ended ≡ self.now.opened.ended }
    {
        self.sealed.begun == self.opened.begun
            && self.sealed.put == self.opened.put
            && self.sealed.ended == self.opened.ended
    }
}
