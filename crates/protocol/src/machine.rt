// The state machine of a line.
ghost use Rattle.std.specs.Prelude.{◌≡◌};
ghost use Rattle.protocol.specs.Rules.{Bounded, fresh, with_register, refusal as refusal_of, answer as answer_to, next, outcome, unless};

use crate::refusal::Refusal;
use crate::state::{Answer, Event, State};

/// A line's state, always within its bounds: only the rules move it.
#[derive(Drop)]
pub struct Machine {
    state: State,
    ghost bounded: { Bounded state },
}

impl Machine {
    /// The machine of a line just made: idle, its register and all its counts 0.
    pub fn new() -> Self
        ensures { result.state ≡ fresh }
    {
        Machine {
            state: State {
                register: 0,
                used: 0,
                files: 0,
                blocks: 0,
                running: None,
            },
        }
    }

    /// Where the line stands.
    pub fn state(&self) -> State
        ensures { result ≡ self.now.state }
    {
        let Machine { state, .. } = self;
        *state
    }

    /// Decides a call on the line with this number, and counts it where it is accepted. `opens` is a flag as in the rules: it
    /// only tells which answer an end has.
    pub fn advance(&mut self, number: u8, opens: bool, event: Event) -> Result<Answer, Refusal>
        ensures result { result ≡ outcome (refusal_of number self.old.state event) (answer_to number opens self.old.state event) }
        ensures after { self.new.state ≡ unless (refusal_of number self.old.state event) self.old.state (next self.old.state event) }
    {
        self.state.advance(number, opens, event)
    }

    /// Sets the register to what the blocks of a put left.
    pub fn set_register(&mut self, register: u64)
        ensures { self.new.state ≡ with_register register self.old.state }
    {
        self.state.register = register;
    }
}
