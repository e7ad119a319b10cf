// The end of a file on a sealing line.
ghost use Rattle.std.specs.Prelude.{false};
ghost use Rattle.line.specs.Model.Call.{End};
ghost use Rattle.line.specs.Performs.{Performs, HandsBack, sealed};

use crate::Line;
use crate::kind::Sealing;
use crate::slip::{Returned, Slip};
use cipher::Cipher;
use mode::Mode;

impl<C: Cipher, M: Mode> Line<Sealing, C, M> {
    /// Ends the running file with its tail of 0 to 7 bytes: writes the sealed block of tail and pad, and answers the file's
    /// blocks.
    pub fn end(&mut self, slip: Slip, tail: &[u8], output: &mut [u8]) -> Result<u32, Returned>
        ensures did { Performs (λ _. false) M.Mode.steps C.Cipher.meaning self.old (End slip.line slip.file tail.now output.old) (sealed result) output.new self.new }
        ensures slip { HandsBack slip result }
    {
        let decided = self.end_step(slip.line, slip.file, tail, output);
        slip.settle(decided)?;
        Ok(self.blocks())
    }
}
