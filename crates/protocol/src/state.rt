// The counts of a line, and which calls they allow.
ghost use Rattle.std.specs.Prelude.{◌≡◌};
ghost use Rattle.protocol.specs.Rules.{Bounded, refusal as refusal_of, answer as answer_to, next, outcome, unless, opened_tail};

use crate::refusal::Refusal;
use stream::last::Last;

/// The blocks that one key seals or opens before it is retired.
pub const BLOCK_LIMIT: u32 = 1_048_576;

/// Where a line stands: a plain record, changed only by the line's calls.
#[derive(Clone, Copy, PartialEq, Eq, Debug)]
pub struct State {
    /// The register R of the mode.
    pub register: u64,
    /// The used count U: blocks sealed or opened under the line's key.
    pub used: u32,
    /// The files begun, F.
    pub files: u16,
    /// The blocks B of this file.
    pub blocks: u32,
    /// The number of the running file; an idle line has none.
    pub running: Option<u16>,
}

/// A call, by what decides it: start value, slip numbers and lengths of buffers.
#[derive(Clone, Copy)]
pub enum Event {
    Begin {
        start: u64,
    },
    Put {
        input: usize,
        output: usize,
    },
    /// The last block is worked out before the end is decided; where there is none, the input has a wrong length.
    End {
        line: u8,
        file: u16,
        last: Option<Last>,
        output: usize,
    },
    Abandon {
        line: u8,
        file: u16,
    },
}

/// What an accepted call answers.
#[derive(Clone, Copy, PartialEq, Eq, Debug)]
pub enum Answer {
    /// The numbers of the slip that a begin made.
    Begun { line: u8, file: u16 },
    /// The blocks that a put took.
    Taken { blocks: usize },
    /// The file's blocks, at the end of a sealed file.
    Sealed { blocks: u32 },
    /// The file's blocks and its tail's length, at the end of an opened file.
    Opened { blocks: u32, tail: usize },
    /// The blocks of an abandoned file.
    Abandoned { blocks: u32 },
}

impl Answer {
    /// The length of an opened tail; 0 for every other answer.
    pub fn tail(self) -> usize
        ensures { result ≡ opened_tail self }
    {
        match self {
            Answer::Opened { tail, .. } => tail,
            _ => 0,
        }
    }
}

impl State {
    /// Decides a call by the phase and the call together, and counts it where it is accepted.
    pub(crate) fn advance(
        &mut self,
        number: u8,
        opens: bool,
        event: Event,
    ) -> Result<Answer, Refusal>
        requires { Bounded self.old }
        ensures result { result ≡ outcome (refusal_of number self.old event) (answer_to number opens self.old event) }
        ensures after { self.new ≡ unless (refusal_of number self.old event) self.old (next self.old event) }
        ensures bounded { Bounded self.new }
    {
        match (self.running, event) {
            (Some(_), Event::Begin { .. }) => Err(Refusal::AlreadyRunning),
            (None, Event::Begin { start }) => {
                if self.used == BLOCK_LIMIT {
                    return Err(Refusal::KeyRetired);
                }
                if self.files == u16::MAX {
                    return Err(Refusal::FilesExhausted);
                }
                self.files += 1;
                self.register = start;
                self.blocks = 0;
                self.running = Some(self.files);
                Ok(Answer::Begun {
                    line: number,
                    file: self.files,
                })
            }
            (None, Event::Put { .. }) => Err(Refusal::PutWhileIdle),
            (Some(_), Event::Put { input, output }) => {
                if input % 8 != 0 {
                    return Err(Refusal::NotWholeBlocks);
                }
                if output < input {
                    return Err(Refusal::PutOutputTooShort);
                }
                let blocks = input / 8;
                if self.used as usize + blocks > 1_048_575 {
                    return Err(Refusal::KeyExhausted);
                }
                // Not by `try_from`: the limit above bounds it, and a second refusal could never come.
                let taken = blocks as u32;
                self.used += taken;
                self.blocks += taken;
                Ok(Answer::Taken { blocks })
            }
            (None, Event::End { .. }) => Err(Refusal::NothingRuns),
            (
                Some(running),
                Event::End {
                    line,
                    file,
                    last,
                    output,
                },
            ) => {
                if (line, file) != (number, running) {
                    return Err(Refusal::ForeignSlip);
                }
                let Some(last) = last else {
                    return Err(Refusal::WrongLength);
                };
                if output < 8 {
                    return Err(Refusal::EndOutputTooShort);
                }
                let Some(tail) = last.tail else {
                    return Err(Refusal::NoPad);
                };
                if self.blocks == 0 && tail == 0 {
                    return Err(Refusal::EmptyFile);
                }
                self.register = last.register;
                self.used += 1;
                self.blocks += 1;
                self.running = None;
                let blocks = self.blocks;
                // By rule this one match decides the call; a kind in place of the flag would be no plainer for one answer.
                if opens {
                    Ok(Answer::Opened { blocks, tail })
                } else {
                    Ok(Answer::Sealed { blocks })
                }
            }
            (None, Event::Abandon { .. }) => Err(Refusal::NothingRuns),
            (Some(running), Event::Abandon { line, file }) => {
                if (line, file) != (number, running) {
                    return Err(Refusal::ForeignSlip);
                }
                self.running = None;
                Ok(Answer::Abandoned {
                    blocks: self.blocks,
                })
            }
        }
    }
}
