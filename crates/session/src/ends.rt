// The end of a file, on either kind of line.
ghost use Rattle.std.specs.Prelude.{◌≡◌, IfOk};
ghost use Rattle.line.specs.Laws.{writes};
ghost use Rattle.line.specs.Model.Call.{End};
ghost use Rattle.line.specs.Performs.{Performs, HandsBack};
ghost use Rattle.session.specs.Slips.{opens_of, ended, why};

use cipher::Cipher;
use line::Line;
use line::kind::{Kind, Opening, Sealing};
use line::slip::{Returned, Slip};
use mode::Mode;

/// A kind of line, with its end.
pub trait Ends: Kind {
    /// Ends the running file, and answers its blocks and how many bytes were written.
    fn end<C: Cipher, M: Mode>(
        line: &mut Line<Self, C, M>,
        slip: Slip,
        input: &[u8],
        output: &mut [u8],
    ) -> Result<(u32, usize), Returned>
        ensures did { Performs Self.Kind.opening M.Mode.steps C.Cipher.meaning line.old (End slip.line slip.file input.now output.old) (ended (opens_of Self.Kind.opening line.old) (why result)) output.new line.new }
        ensures written { IfOk result (λ e. e.1 ≡ writes (ended (opens_of Self.Kind.opening line.old) (why result))) }
        ensures slip { HandsBack slip result };
}

impl Ends for Sealing {
    fn end<C: Cipher, M: Mode>(
        line: &mut Line<Sealing, C, M>,
        slip: Slip,
        tail: &[u8],
        output: &mut [u8],
    ) -> Result<(u32, usize), Returned> {
        line.end(slip, tail, output).map(|blocks| (blocks, 8))
    }
}

impl Ends for Opening {
    fn end<C: Cipher, M: Mode>(
        line: &mut Line<Opening, C, M>,
        slip: Slip,
        last: &[u8],
        output: &mut [u8],
    ) -> Result<(u32, usize), Returned> {
        line.end(slip, last, output)
    }
}
