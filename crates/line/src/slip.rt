// The slip of a begun file.
ghost use Rattle.std.specs.Prelude.{◌≡◌};

use crate::refusal::Refusal;
use crate::state::Answer;

/// A begun file owes its end or its abandoning, and its slip is the token of that debt: only an accepted begin makes one, and
/// only an accepted end or abandon spends it. It can be neither copied, dropped nor forged.
pub struct Slip {
    pub(crate) line: u8,
    pub(crate) file: u16,
}

impl Slip {
    ghost use Rattle.line.specs.Performs.{settled};

    /// The number of the line that made it.
    pub fn line(&self) -> u8
        ensures { result ≡ self.now.line }
    {
        self.line
    }

    /// The number of the file that it stands for.
    pub fn file(&self) -> u16
        ensures { result ≡ self.now.file }
    {
        self.file
    }

    /// What an end or an abandoning answers: the slip is spent where it was accepted, and handed back where it was refused.
    pub(crate) fn settle(self, decided: Result<Answer, Refusal>) -> Result<Answer, Returned>
        ensures { result ≡ settled self decided }
    {
        // No `map_err`: the slip goes into either arm.
        match decided {
            Ok(answer) => {
                let Slip { line: _, file: _ } = self;
                Ok(answer)
            }
            Err(refusal) => Err(Returned {
                slip: self,
                refusal,
            }),
        }
    }
}

/// What a refused end or abandon hands back: the same slip, and why.
pub struct Returned {
    pub slip: Slip,
    pub refusal: Refusal,
}
