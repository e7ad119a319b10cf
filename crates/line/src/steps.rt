// What each call does, its slip given by its numbers: the public calls and `replay` both go through these steps.
ghost use Rattle.std.specs.Prelude.{◌≡◌, [], length};
ghost use Rattle.protocol.specs.Rules.{refusal as refusal_of, answer as answer_to, next, outcome, unless};
ghost use Rattle.line.specs.Replay.{input_size, output_size, call_of};
ghost use Rattle.line.specs.Model.{Fit};
ghost use Rattle.line.specs.Model.Call.{Begin, Put, End, Abandon};
ghost use Rattle.line.specs.Performs.{Performs};

use crate::Line;
use crate::kind::Kind;
use crate::refusal::Refusal;
use crate::request::Request;
use crate::state::{Answer, Event};
use cipher::Cipher;
use mode::Mode;

impl<K: Kind, C: Cipher, M: Mode> Line<K, C, M> {
    /// Decides a call that takes no block by the rules, and counts it where it is accepted.
    fn decide(&mut self, event: Event) -> Result<Answer, Refusal>
        ensures result { result ≡ outcome (refusal_of self.old.number self.old.machine.state event) (answer_to self.old.number (K.Kind.opening self.old.block_mode.kind) self.old.machine.state event) }
        ensures after { self.new.machine.state ≡ unless (refusal_of self.old.number self.old.machine.state event) self.old.machine.state (next self.old.machine.state event) }
        ensures block_mode { self.new.block_mode ≡ self.old.block_mode }
        ensures number { self.new.number ≡ self.old.number }
    {
        self.machine
            .advance(self.number, self.block_mode.opens(), event)
    }

    pub(crate) fn begin_step(&mut self, start: u64) -> Result<Answer, Refusal>
        ensures { Performs K.Kind.opening M.Mode.steps C.Cipher.meaning self.old (Begin start) result [] self.new }
    {
        self.decide(Event::Begin { start })
    }

    pub(crate) fn put_step(&mut self, input: &[u8], output: &mut [u8]) -> Result<Answer, Refusal>
        ensures { Performs K.Kind.opening M.Mode.steps C.Cipher.meaning self.old (Put input.now output.old) result output.new self.new }
    {
        let through = self.block_mode.directed();
        let event = Event::Put {
            input: input.len(),
            output: output.len(),
        };
        let answer = self.machine.advance(self.number, through.opens(), event)?;
        let register = through.pass(self.machine.state().register, input, output);
        self.machine.set_register(register);
        Ok(answer)
    }

    pub(crate) fn end_step(
        &mut self,
        line: u8,
        file: u16,
        input: &[u8],
        output: &mut [u8],
    ) -> Result<Answer, Refusal>
        ensures { Performs K.Kind.opening M.Mode.steps C.Cipher.meaning self.old (End line file input.now output.old) result output.new self.new }
    {
        let through = self.block_mode.directed();
        let last = through.last_block(self.machine.state().register, input);
        let event = Event::End {
            line,
            file,
            last,
            output: output.len(),
        };
        let answer = self.machine.advance(self.number, through.opens(), event)?;
        through.write_last(last, output);
        Ok(answer)
    }

    pub(crate) fn abandon_step(&mut self, line: u8, file: u16) -> Result<Answer, Refusal>
        ensures { Performs K.Kind.opening M.Mode.steps C.Cipher.meaning self.old (Abandon line file) result [] self.new }
    {
        self.decide(Event::Abandon { line, file })
    }

    /// One call of a list, on the bytes that are lent to it.
    pub(crate) fn perform(
        &mut self,
        request: Request,
        input: &[u8],
        output: &mut [u8],
    ) -> Result<Answer, Refusal>
        requires read { length input.now ≡ input_size request }
        requires write { length output.old ≡ output_size request }
        ensures did { Performs K.Kind.opening M.Mode.steps C.Cipher.meaning self.old (call_of request input.now output.old) result output.new self.new }
        ensures fit { Fit (call_of request input.now output.old) }
    {
        match request {
            Request::Begin { start } => self.begin_step(start),
            Request::Put { .. } => self.put_step(input, output),
            Request::End { line, file, .. } => self.end_step(line, file, input, output),
            Request::Abandon { line, file } => self.abandon_step(line, file),
        }
    }
}
