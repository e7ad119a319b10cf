// A whole list of calls performed on one line.
ghost use Rattle.std.specs.Prelude.{◌≡◌, ◌≤◌, true, length};
ghost use Rattle.line.specs.Laws.{Laws};
ghost use Rattle.stream.specs.Stream.{overwritten};
ghost use Rattle.line.specs.Model.{AllFit, params, run, left};
ghost use Rattle.line.specs.Performs.{params_of};
ghost use Rattle.line.specs.Replay.{bytes_fit as do_bytes_fit, calls, answers, out_bytes, Replayed};

use crate::Line;
use crate::kind::Kind;
use crate::refusal::Refusal;
use crate::request::{Misfit, Request};
use crate::state::{Answer, State};
use cipher::Cipher;
use mode::Mode;

/// Whether buffers of these lengths hold the bytes of all the calls.
fn bytes_fit(requests: &[Request], inputs: usize, outputs: usize) -> bool
    ensures { result ≡ do_bytes_fit requests.now inputs outputs }
{
    let mut input = inputs;
    let mut output = outputs;
    for request in requests {
        let reads = request.input_size();
        let writes = request.output_size();
        if reads > input || writes > output {
            return false;
        }
        input -= reads;
        output -= writes;
    }
    true
}

/// Performs the calls on `line`, one after another.
fn perform_all<K: Kind, C: Cipher, M: Mode>(
    line: &mut Line<K, C, M>,
    requests: &[Request],
    inputs: &[u8],
    outputs: &mut [u8],
    replies: &mut [Result<Answer, Refusal>],
)
    requires bytes { do_bytes_fit requests.now (length inputs.now) (length outputs.old) ≡ true }
    requires room { length requests.now ≤ length replies.old }
    ensures state { line.new.machine.state ≡ left (params_of K.Kind.opening M.Mode.steps C.Cipher.meaning line.old) line.old.machine.state (calls requests.now inputs.now outputs.old) }
    ensures out { outputs.new ≡ overwritten (out_bytes (run (params_of K.Kind.opening M.Mode.steps C.Cipher.meaning line.old) line.old.machine.state (calls requests.now inputs.now outputs.old))) outputs.old }
    ensures reply { replies.new ≡ overwritten (answers (run (params_of K.Kind.opening M.Mode.steps C.Cipher.meaning line.old) line.old.machine.state (calls requests.now inputs.now outputs.old))) replies.old }
    ensures fit { AllFit (calls requests.now inputs.now outputs.old) }
{
    // By place: after a loop over `requests.iter().zip(replies.iter_mut())` no proof knows what the replies are (tried), and none
    // knows what lies in parts that were lent.
    let mut rest = inputs;
    let mut written = 0;
    for (i, request) in requests.iter().enumerate() {
        let (input, more) = rest.split_at(request.input_size());
        let written_to = written + request.output_size();
        replies[i] = line.perform(*request, input, &mut outputs[written..written_to]);
        rest = more;
        written = written_to;
    }
}

/// Makes a line and performs a list of calls on it, with the bytes of each call lying one after another in `inputs` and
/// `outputs`. It writes the reply to each call into `replies` and answers where the list leaves the line. No slip leaves it.
/// By rule it allocates nothing, hence the four lent buffers.
///
/// Where the buffers do not hold what the calls ask for, it changes nothing.
pub fn replay<K: Kind + Drop, C: Cipher + Drop, M: Mode + Drop>(
    kind: K,
    cipher: C,
    mode: M,
    number: u8,
    requests: &[Request],
    inputs: &[u8],
    outputs: &mut [u8],
    replies: &mut [Result<Answer, Refusal>],
) -> Result<State, Misfit>
    ensures ran { Replayed (params (K.Kind.opening kind) (M.Mode.steps mode) (C.Cipher.meaning cipher) number) requests.now inputs.now outputs.old replies.old result outputs.new replies.new }
    ensures laws { Laws (K.Kind.opening kind) (C.Cipher.meaning cipher) (M.Mode.steps mode) number }
{
    let mut line = Line::new(kind, cipher, mode, number);
    if requests.len() > replies.len() {
        return Err(Misfit);
    }
    if !bytes_fit(requests, inputs.len(), outputs.len()) {
        return Err(Misfit);
    }
    perform_all(&mut line, requests, inputs, outputs, replies);
    Ok(line.state())
}
