// Making a line, and the calls that are alike on both kinds.
ghost use Rattle.std.specs.Prelude.{◌≡◌, []};
ghost use Rattle.line.specs.Laws.{Laws};
ghost use Rattle.line.specs.Model.Call.{Begin, Put, Abandon};
ghost use Rattle.line.specs.Performs.{Performs, HandsBack, Made, begun, taken, abandoned};

use crate::Line;
use crate::kind::Kind;
use crate::refusal::Refusal;
use crate::slip::{Returned, Slip};
use cipher::Cipher;
use mode::Mode;
use protocol::machine::Machine;
use stream::BlockMode;

impl<K: Kind, C: Cipher, M: Mode> Line<K, C, M> {
    /// A line just made: idle, its register and all its counts 0. It keeps the laws over every list of calls.
    pub fn new(kind: K, cipher: C, mode: M, number: u8) -> Self
        ensures made { Made kind cipher mode number result }
        ensures laws { Laws (K.Kind.opening kind) (C.Cipher.meaning cipher) (M.Mode.steps mode) number }
    {
        let machine = Machine::new();
        Line {
            block_mode: BlockMode::new(kind, cipher, mode),
            number,
            machine,
        }
    }

    /// Begins a file with its start value, and answers the file's slip.
    pub fn begin(&mut self, start: u64) -> Result<Slip, Refusal>
        ensures { Performs K.Kind.opening M.Mode.steps C.Cipher.meaning self.old (Begin start) (begun result) [] self.new }
    {
        self.begin_step(start)?;
        Ok(Slip {
            line: self.number,
            file: self.files(),
        })
    }

    /// Takes whole blocks of the running file through the mode's step, to the front of `output`, and answers how many.
    pub fn put(&mut self, input: &[u8], output: &mut [u8]) -> Result<usize, Refusal>
        ensures { Performs K.Kind.opening M.Mode.steps C.Cipher.meaning self.old (Put input.now output.old) (taken result) output.new self.new }
    {
        self.put_step(input, output)?;
        Ok(input.len() / 8)
    }

    /// Gives the running file up, and answers its blocks.
    pub fn abandon(&mut self, slip: Slip) -> Result<u32, Returned>
        ensures did { Performs K.Kind.opening M.Mode.steps C.Cipher.meaning self.old (Abandon slip.line slip.file) (abandoned result) [] self.new }
        ensures slip { HandsBack slip result }
    {
        let decided = self.abandon_step(slip.line, slip.file);
        slip.settle(decided)?;
        Ok(self.blocks())
    }
}
