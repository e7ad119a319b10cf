// Why the walkthrough stops early.
use line::refusal::Refusal;
use line::request::Misfit;
use misty1::KeyRefused;
use std::alloc::AllocError;
use std::{fmt, io};

/// Why the walkthrough stops early.
#[derive(Drop)]
pub enum Trouble {
    Output(io::Error),
    Memory(AllocError),
    Key(KeyRefused),
    Refused(Refusal),
    Misfit(Misfit),
}

impl fmt::Display for Trouble {
    fn fmt<W: fmt::Write>(&self, f: &mut fmt::Formatter<W>) -> fmt::Result {
        f.write_str(match self {
            Trouble::Output(_) => "the text could not be written",
            Trouble::Memory(_) => "no memory",
            Trouble::Key(_) => "the key was refused",
            Trouble::Refused(_) => "a call was refused",
            Trouble::Misfit(_) => "the buffers do not hold what the list of calls asks for",
        })
    }
}

// `From` and `Display` are written out: the derive of `thiserror` (tried) prints `io::Error` for debugging, and the program would then
// trust one more function of the C library.

impl From<io::Error> for Trouble {
    fn from(error: io::Error) -> Trouble {
        Trouble::Output(error)
    }
}

impl From<AllocError> for Trouble {
    fn from(error: AllocError) -> Trouble {
        Trouble::Memory(error)
    }
}

impl From<KeyRefused> for Trouble {
    fn from(refused: KeyRefused) -> Trouble {
        Trouble::Key(refused)
    }
}

impl From<Refusal> for Trouble {
    fn from(refusal: Refusal) -> Trouble {
        Trouble::Refused(refusal)
    }
}

impl From<Misfit> for Trouble {
    fn from(misfit: Misfit) -> Trouble {
        Trouble::Misfit(misfit)
    }
}
