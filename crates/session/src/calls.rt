// The calls of a session.
ghost use Rattle.std.specs.Prelude.{◌≡◌, [], IfOk, IsSome};
ghost use Rattle.line.specs.Laws.{Laws, writes};
ghost use Rattle.line.specs.Model.Call.{Begin, Put, End, Abandon};
ghost use Rattle.line.specs.Performs.{Performs, Made, taken};
ghost use Rattle.session.specs.Slips.{state_of, number_of, file_of, opens_of, owed, begun, ended, abandoned};

use crate::Session;
use crate::ends::Ends;
use crate::hand_back::{hand_back, put_back};
use cipher::Cipher;
use line::Line;
use line::kind::Kind;
use line::refusal::Refusal;
use line::state::State;
use mode::Mode;

impl<K: Kind + Drop, C: Cipher + Drop, M: Mode + Drop> Session<K, C, M> {
    /// A session over a line just made, on which no file runs.
    pub fn new(kind: K, cipher: C, mode: M, number: u8) -> Self
        ensures made { Made kind cipher mode number result.line }
        ensures laws { Laws (K.Kind.opening kind) (C.Cipher.meaning cipher) (M.Mode.steps mode) number }
    {
        Session {
            line: Line::new(kind, cipher, mode, number),
            slip: None,
        }
    }

    /// Where the line stands.
    pub fn state(&self) -> State
        ensures { result ≡ state_of self.now.line }
    {
        self.line.state()
    }

    /// The line, for reading.
    pub fn line(&self) -> &Line<K, C, M>
        ensures { result.now ≡ self.now.line }
    {
        &self.line
    }

    /// The line's number.
    pub fn number(&self) -> u8
        ensures { result ≡ number_of self.now.line }
    {
        self.line.number()
    }

    /// The numbers of the slip that the running file owes, its line and its file.
    pub fn slip(&self) -> Option<(u8, u16)>
        ensures { result ≡ owed self.now.line }
    {
        self.slip.as_ref().map(|slip| (slip.line(), slip.file()))
    }

    /// Begins a file with its start value, and keeps its slip.
    pub fn begin(&mut self, start: u64) -> Result<(), Refusal>
        ensures did { Performs K.Kind.opening M.Mode.steps C.Cipher.meaning self.old.line (Begin start) (begun self.new.line result) [] self.new.line }
        ensures runs { IfOk result (λ _. IsSome (owed self.new.line)) }
    {
        let slip = self.line.begin(start)?;
        // No file ran, so the place is empty.
        put_back(&mut self.slip, slip);
        Ok(())
    }

    /// Takes whole blocks of the running file, to the front of `output`, and answers how many.
    pub fn put(&mut self, input: &[u8], output: &mut [u8]) -> Result<usize, Refusal>
        ensures { Performs K.Kind.opening M.Mode.steps C.Cipher.meaning self.old.line (Put input.now output.old) (taken result) output.new self.new.line }
    {
        self.line.put(input, output)
    }

    // `abandon` and `end` are two functions: they differ in the call and its answer, and so in their clauses, and not in a type or
    // a constant.

    /// Gives the running file up, and answers its blocks.
    pub fn abandon(&mut self) -> Result<u32, Refusal>
        ensures { Performs K.Kind.opening M.Mode.steps C.Cipher.meaning self.old.line (Abandon (number_of self.old.line) (file_of self.old.line)) (abandoned result) [] self.new.line }
    {
        let Some(slip) = self.slip.take() else {
            return Err(Refusal::NothingRuns);
        };
        hand_back(&mut self.slip, self.line.abandon(slip))
    }
}

impl<K: Ends + Drop, C: Cipher + Drop, M: Mode + Drop> Session<K, C, M> {
    /// Ends the running file with its tail or its last block, and answers its blocks and how many bytes were written.
    pub fn end(&mut self, input: &[u8], output: &mut [u8]) -> Result<(u32, usize), Refusal>
        ensures did { Performs K.Kind.opening M.Mode.steps C.Cipher.meaning self.old.line (End (number_of self.old.line) (file_of self.old.line) input.now output.old) (ended (opens_of K.Kind.opening self.old.line) result) output.new self.new.line }
        ensures written { IfOk result (λ e. e.1 ≡ writes (ended (opens_of K.Kind.opening self.old.line) result)) }
    {
        let Some(slip) = self.slip.take() else {
            return Err(Refusal::NothingRuns);
        };
        hand_back(&mut self.slip, K::end(&mut self.line, slip, input, output))
    }
}
