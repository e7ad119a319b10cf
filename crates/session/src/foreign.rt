// Ending and abandoning with the slip of another session's file.
ghost use Rattle.std.specs.Prelude.{◌≡◌, [], Some, None, IfNone, IfSome, IfOk};
ghost use Rattle.line.specs.Laws.{writes};
ghost use Rattle.line.specs.Model.Call.{End, Abandon};
ghost use Rattle.line.specs.Performs.{Performs};
ghost use Rattle.session.specs.Slips.{number_of, file_of, opens_of, owed, ended, abandoned};

use crate::Session;
use crate::ends::Ends;
use crate::hand_back::hand_back;
use cipher::Cipher;
use line::kind::Kind;
use line::refusal::Refusal;
use mode::Mode;
use std::mem;

// `abandon_by` and `end_by` are two functions: they differ in the call and its answer, and so in their clauses, and not in a type
// or a constant.

impl<K: Kind + Drop, C: Cipher + Drop, M: Mode + Drop> Session<K, C, M> {
    /// Tries to give the running file up with the slip of the file that runs on `other`; none where no file runs there. The
    /// other session is left as it was, also where the slip was taken: this one's then has the same numbers, and takes its place.
    pub fn abandon_by<L: Kind + Drop, D: Cipher + Drop, N: Mode + Drop>(
        &mut self,
        other: &mut Session<L, D, N>,
    ) -> Option<Result<u32, Refusal>>
        ensures none { IfNone result ((owed other.old.line ≡ None) × (self.new.line ≡ self.old.line)) }
        ensures some { IfSome result (λ r. Performs K.Kind.opening M.Mode.steps C.Cipher.meaning self.old.line (Abandon (number_of other.old.line) (file_of other.old.line)) (abandoned r) [] self.new.line) }
        ensures runs { IfSome result (λ r. owed other.old.line ≡ Some (number_of other.old.line, file_of other.old.line)) }
        ensures other { other.new.line ≡ other.old.line }
    {
        let slip = other.slip.take()?;
        let tried = hand_back(&mut other.slip, self.line.abandon(slip));
        if tried.is_ok() {
            mem::swap(&mut self.slip, &mut other.slip);
        }
        Some(tried)
    }
}

impl<K: Ends + Drop, C: Cipher + Drop, M: Mode + Drop> Session<K, C, M> {
    /// Tries to end the running file with the slip of the file that runs on `other`, as `abandon_by` does.
    pub fn end_by<L: Kind + Drop, D: Cipher + Drop, N: Mode + Drop>(
        &mut self,
        other: &mut Session<L, D, N>,
        input: &[u8],
        output: &mut [u8],
    ) -> Option<Result<(u32, usize), Refusal>>
        ensures none { IfNone result ((owed other.old.line ≡ None) × (self.new.line ≡ self.old.line) × (output.new ≡ output.old)) }
        ensures some { IfSome result (λ r. Performs K.Kind.opening M.Mode.steps C.Cipher.meaning self.old.line (End (number_of other.old.line) (file_of other.old.line) input.now output.old) (ended (opens_of K.Kind.opening self.old.line) r) output.new self.new.line) }
        ensures runs { IfSome result (λ r. owed other.old.line ≡ Some (number_of other.old.line, file_of other.old.line)) }
        ensures written { IfSome result (λ r. IfOk r (λ e. e.1 ≡ writes (ended (opens_of K.Kind.opening self.old.line) r))) }
        ensures other { other.new.line ≡ other.old.line }
    {
        let slip = other.slip.take()?;
        let answer = hand_back(&mut other.slip, K::end(&mut self.line, slip, input, output));
        if answer.is_ok() {
            mem::swap(&mut self.slip, &mut other.slip);
        }
        Some(answer)
    }
}
