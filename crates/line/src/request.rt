// Calls by their sizes, for `replay`.
ghost use Rattle.std.specs.Prelude.{◌≡◌};
ghost use Rattle.line.specs.Replay.{input_size, output_size};

/// A call whose buffers are given by their lengths, and whose slip is given by its two numbers.
#[derive(Clone, Copy, PartialEq, Eq, Debug)]
pub enum Request {
    Begin {
        start: u64,
    },
    Put {
        input: usize,
        output: usize,
    },
    End {
        line: u8,
        file: u16,
        input: usize,
        output: usize,
    },
    Abandon {
        line: u8,
        file: u16,
    },
}

impl Request {
    /// How many bytes of input the call takes.
    pub fn input_size(self) -> usize
        ensures { result ≡ input_size self }
    {
        match self {
            Request::Put { input, .. } | Request::End { input, .. } => input,
            _ => 0,
        }
    }

    /// How many bytes of output it is lent.
    pub fn output_size(self) -> usize
        ensures { result ≡ output_size self }
    {
        match self {
            Request::Put { output, .. } | Request::End { output, .. } => output,
            _ => 0,
        }
    }
}

/// The buffers lent to `replay` do not hold what the list of calls asks for.
#[derive(Clone, Copy, PartialEq, Eq, Debug)]
pub struct Misfit;
