// The end of a file on an opening line.
ghost use Rattle.std.specs.Prelude.{true};
ghost use Rattle.line.specs.Model.Call.{End};
ghost use Rattle.line.specs.Performs.{Performs, HandsBack, opened};

use crate::Line;
use crate::kind::Opening;
use crate::slip::{Returned, Slip};
use cipher::Cipher;
use mode::Mode;

impl<C: Cipher, M: Mode> Line<Opening, C, M> {
    /// Ends the running file with its last block: writes the tail alone, and answers the file's blocks and the tail's length.
    pub fn end(
        &mut self,
        slip: Slip,
        last: &[u8],
        output: &mut [u8],
    ) -> Result<(u32, usize), Returned>
        ensures did { Performs (λ _. true) M.Mode.steps C.Cipher.meaning self.old (End slip.line slip.file last.now output.old) (opened result) output.new self.new }
        ensures slip { HandsBack slip result }
    {
        let decided = self.end_step(slip.line, slip.file, last, output);
        let answer = slip.settle(decided)?;
        Ok((self.blocks(), answer.tail()))
    }
}
