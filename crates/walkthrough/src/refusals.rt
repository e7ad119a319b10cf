// Calls that are refused.
ghost use Rattle.std.specs.Prelude.{◌≡◌, ◌≢◌, true, Some, None};
ghost use Rattle.std.specs.Result.{result_err};
ghost use Rattle.protocol.specs.Rules.{fresh};
ghost use Rattle.session.specs.Slips.{state_of, number_of, owed};
ghost use Rattle.protocol.specs.declared.refusal.Refusal.TheVariants.{PutWhileIdle, NotWholeBlocks, AlreadyRunning, ForeignSlip};

use crate::carry::{give_up, pass};
use crate::pay::{BODY, FILE, KEY, NUMBER, START};
use crate::text::word;
use crate::trouble::Trouble;
use line::kind::{Opening, Sealing};
use line::refusal::Refusal;
use line::state::State;
use misty1::Misty1;
use mode::cbc::Cbc;
use session::Session;
use std::{fmt, io};

/// The number of the line whose slip is foreign.
const OTHER: u8 = 8;

/// What came of a call that ought to be refused.
#[derive(Clone, Copy)]
struct Attempt {
    /// Why it was refused; none where the call was accepted.
    refused: Option<Refusal>,
    /// Whether register, counts and running file are as they were.
    unchanged: bool,
}

impl Attempt {
    fn new<A: Drop>(before: State, answer: Result<A, Refusal>, after: State) -> Attempt
        ensures refused { result.refused ≡ result_err answer }
        ensures unchanged { result.unchanged ≡ true → before ≡ after }
    {
        Attempt {
            refused: answer.err(),
            unchanged: before == after,
        }
    }
}

impl fmt::Display for Attempt {
    fn fmt<W: fmt::Write>(&self, f: &mut fmt::Formatter<W>) -> fmt::Result {
        let unchanged = word(self.unchanged);
        match self.refused {
            Some(refusal) => {
                let number = refusal.number();
                write!(f, "refused {number}; counts unchanged: {unchanged}")
            }
            None => f.write_str("accepted"),
        }
    }
}

/// The attempts on a sealing line.
#[derive(Clone, Copy)]
struct SealingAttempts {
    /// A put while no file runs.
    idle: Attempt,
    /// The numbers of the slip of the file that then runs.
    slip: (u8, u16),
    /// A put of 9 bytes.
    odd: Attempt,
    /// Another begin.
    again: Attempt,
    /// An end with the slip of another line.
    foreign: Attempt,
}

/// Tries what a sealing line refuses, and then abandons its file and that of the other line. Both lines are as they were made, and
/// have numbers of their own. No file is left running.
fn try_sealing(
    session: &mut Session<Sealing, Misty1, Cbc>,
    other: &mut Session<Sealing, Misty1, Cbc>,
) -> SealingAttempts
    requires new { state_of session.old.line ≡ fresh }
    requires new_other { state_of other.old.line ≡ fresh }
    requires apart { number_of session.old.line ≢ number_of other.old.line }
    ensures idle { result.idle.refused ≡ Some PutWhileIdle }
    ensures odd { result.odd.refused ≡ Some NotWholeBlocks }
    ensures again { result.again.refused ≡ Some AlreadyRunning }
    ensures foreign { result.foreign.refused ≡ Some ForeignSlip }
    ensures left { owed session.new.line ≡ None }
    ensures left_other { owed other.new.line ≡ None }
{
    let mut output = [0; 16];
    let new = session.state();
    let idle = session.put(&FILE[0..8], &mut output);
    let idle = Attempt::new(new, idle, session.state());
    session.begin(START).unwrap();
    other.begin(START).unwrap();
    let (slip, begun) = (session.slip().unwrap(), session.state());
    let odd = session.put(&FILE[0..9], &mut output);
    let odd = Attempt::new(begun, odd, session.state());
    let again = session.begin(START);
    let again = Attempt::new(begun, again, session.state());
    let foreign = session.end_by(other, b"58\n", &mut output).unwrap();
    let foreign = Attempt::new(begun, foreign, session.state());
    give_up(other);
    give_up(session);
    SealingAttempts {
        idle,
        slip,
        odd,
        again,
        foreign,
    }
}

/// Ends the file of an opening line just made with a block that has no pad, which is refused, and then abandons the file. No file is
/// left running, also where the end was taken.
fn no_pad(opener: &mut Session<Opening, Misty1, Cbc>, block: &[u8]) -> Attempt
    requires { state_of opener.old.line ≡ fresh }
    ensures { owed opener.new.line ≡ None }
{
    opener.begin(START).unwrap();
    let begun = opener.state();
    let end = opener.end(block, &mut [0; 8]);
    let attempt = Attempt::new(begun, end, opener.state());
    give_up(opener);
    attempt
}

/// The refusals of a sealing line.
fn sealing(rt: &HostRuntime, cipher: Misty1) -> io::Result<()> {
    let mut session = Session::new(Sealing, cipher, Cbc, NUMBER);
    let mut other = Session::new(Sealing, cipher, Cbc, OTHER);
    let SealingAttempts {
        idle,
        slip: (own, file),
        odd,
        again,
        foreign,
    } = try_sealing(&mut session, &mut other);
    println!(rt;
        "Sealing line {NUMBER}, mode cbc\n\
        \x20 put 8 bytes while no file runs: {idle}\n\
        \x20 begin: slip ({own}, {file})\n\
        \x20 put 9 bytes, which is no multiple of 8: {odd}\n\
        \x20 begin while file 1 runs: {again}\n\
        \x20 end with slip (8, 1), which is of line 8: {foreign}\n\
        \x20 The refused end handed slip (8, 1) back: line 8 took it and abandoned its file.\n\
        \x20 Line {NUMBER} then abandoned its file with its own slip.\n"
    )
}

/// The refusal of an opening line.
fn opening(rt: &HostRuntime, cipher: Misty1) -> Result<(), Trouble> {
    let (whole, tail) = FILE.split_at(BODY);
    let mut room = [0; 8];
    let sealing = &mut Session::new(Sealing, cipher, Cbc, NUMBER);
    let sealed = pass(sealing, whole, tail, &mut room)?;
    let opening = &mut Session::new(Opening, cipher, Cbc, NUMBER);
    let attempt = no_pad(opening, &sealed.body[0..8]);
    println!(rt;
        "Opening line {NUMBER}, mode cbc\n\
        \x20 end with the first block of the sealed pay file, which has no pad: {attempt}\n\
        \x20 The refused end handed the slip back, and the line abandoned its file with it.\n"
    )?;
    Ok(())
}

/// A key that is too short.
fn short_key(rt: &HostRuntime) -> io::Result<()> {
    match Misty1::new(&KEY[0..15]) {
        Ok(_) => println!(rt; "MISTY1\n  a key of 15 bytes: accepted"),
        Err(refused) => {
            let number = refused.number();
            println!(rt;
                "MISTY1\n  a key of 15 bytes: refused {number}; there is no cipher, and so no line"
            )
        }
    }
}

/// Calls that are refused, and what they leave.
pub(crate) fn refusals(rt: &HostRuntime, cipher: Misty1) -> Result<(), Trouble> {
    println!(rt;
        "\n4. Calls that are refused\n\nA refused call answers a number and changes nothing.\n"
    )?;
    sealing(rt, cipher)?;
    opening(rt, cipher)?;
    short_key(rt)?;
    Ok(())
}
