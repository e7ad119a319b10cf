// Why a call on a line is refused.
ghost use Rattle.std.specs.Prelude.{◌≡◌};
ghost use Rattle.protocol.specs.Numbers.{number_of};

/// Why a call is refused. A refused call changes nothing.
#[derive(Clone, Copy, PartialEq, Eq, Debug)]
pub enum Refusal {
    /// 11, begin: a file runs.
    AlreadyRunning,
    /// 12, begin: the line has sealed or opened all the blocks of its key.
    KeyRetired,
    /// 13, begin: the line has begun all its files.
    FilesExhausted,
    /// 21, put: no file runs.
    PutWhileIdle,
    /// 22, put: the input's length is no multiple of 8.
    NotWholeBlocks,
    /// 23, put: the output is shorter than the input.
    PutOutputTooShort,
    /// 24, put: the blocks would leave none for the end.
    KeyExhausted,
    /// 31, end and abandon: no file runs.
    NothingRuns,
    /// 32, end and abandon: the slip is of another line or file.
    ForeignSlip,
    /// 33, end: the tail is over 7 bytes, or the last block is not 8.
    WrongLength,
    /// 34, end: the output is under 8 bytes.
    EndOutputTooShort,
    /// 35, end: the file would be empty.
    EmptyFile,
    /// 36, end of an opening line: the last block has no pad.
    NoPad,
}

impl Refusal {
    /// The refusal's number.
    pub fn number(self) -> u8
        ensures { result ≡ number_of self }
    {
        // Not by discriminants and `as`: a number given twice is refused by the proof here, and would be by the compiler there.
        match self {
            Refusal::AlreadyRunning => 11,
            Refusal::KeyRetired => 12,
            Refusal::FilesExhausted => 13,
            Refusal::PutWhileIdle => 21,
            Refusal::NotWholeBlocks => 22,
            Refusal::PutOutputTooShort => 23,
            Refusal::KeyExhausted => 24,
            Refusal::NothingRuns => 31,
            Refusal::ForeignSlip => 32,
            Refusal::WrongLength => 33,
            Refusal::EndOutputTooShort => 34,
            Refusal::EmptyFile => 35,
            Refusal::NoPad => 36,
        }
    }
}
