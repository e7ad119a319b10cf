// A list of calls on a sealing line, and the list that undoes it on an opening line.
ghost use Rattle.std.specs.Prelude.{◌≡◌, ℕ, take, drop, IfOk};
ghost use Rattle.std.specs.List.{zip};
ghost use Rattle.line.specs.declared.request.Request.{Request};
ghost use Rattle.protocol.specs.declared.state.Answer.{Answer};
ghost use Rattle.line.specs.Replay.{input_size, output_size};
ghost use Rattle.walkthrough.specs.Second.{wrote, handed_on as call_handed_on, second_calls as calls_handed_on, used_bytes as bytes_used, bytes_written as bytes_written_by, bytes_taken as bytes_taken_by};

use crate::pay::{NUMBER, START};
use crate::text::{Blocks, Call, Counts, Reply, word};
use crate::trouble::Trouble;
use line::kind::{Kind, Opening, Sealing};
use line::refusal::Refusal;
use line::replay::replay;
use line::request::{Misfit, Request};
use line::state::{Answer, State};
use misty1::Misty1;
use mode::cbc::Cbc;
use std::alloc::{AllocError, Global};
use std::io;

/// The start value of the second file.
const SECOND: u64 = 0x1112131415161718;

/// The calls on the sealing line; four are refused.
const CALLS: [Request; 10] = [
    Request::Put {
        input: 8,
        output: 8,
    },
    Request::Begin { start: START },
    Request::Put {
        input: 24,
        output: 24,
    },
    Request::Put {
        input: 9,
        output: 16,
    },
    Request::Begin { start: SECOND },
    Request::End {
        line: NUMBER,
        file: 1,
        input: 5,
        output: 8,
    },
    Request::Abandon {
        line: NUMBER,
        file: 1,
    },
    Request::Begin { start: SECOND },
    Request::Put {
        input: 8,
        output: 8,
    },
    Request::Abandon {
        line: NUMBER,
        file: 2,
    },
];

/// The bytes that those calls are handed, one call's after another's.
const INPUTS: [u8; 54] = *b"too soonworker=77 hours=40 pay=6not whole1200\nworker=8";

/// What each byte of output holds before the calls.
const UNTOUCHED: u8 = 0xa5;

/// The first bytes of a list, and the rest.
fn cut(bytes: &[u8], n: usize) -> (&[u8], &[u8])
    ensures front { result.0.now ≡ take n bytes.now }
    ensures rest { result.1.now ≡ drop n bytes.now }
{
    bytes.split_at(n.min(bytes.len()))
}

/// How many bytes an accepted call wrote.
fn written(request: Request, answer: Answer) -> usize
    ensures { result ≡ wrote request answer }
{
    match answer {
        Answer::Taken { .. } => request.input_size(),
        Answer::Sealed { .. } => 8,
        Answer::Opened { tail, .. } => tail,
        _ => 0,
    }
}

/// The second line's call for an accepted one of the first line, which wrote so many bytes.
fn handed_on(request: Request, length: usize) -> Request
    ensures { result ≡ call_handed_on request length }
{
    match request {
        Request::Begin { .. } | Request::Abandon { .. } => request,
        Request::Put { .. } => Request::Put {
            input: length,
            output: length,
        },
        Request::End { line, file, .. } => Request::End {
            line,
            file,
            input: length,
            output: 8,
        },
    }
}

/// A buffer that the calls of a list share: each has the next part of it.
trait Buffer {
    ghost size: { Request → ℕ };

    ghost used: { Request → Answer → ℕ };

    /// How long a call's part is.
    fn size(request: Request) -> usize
        ensures { result ≡ size request };

    /// How much of its part an accepted call takes or writes.
    fn used(request: Request, answer: Answer) -> usize
        ensures { result ≡ used request answer };
}

/// The buffer that the calls are handed.
struct Inputs;

/// The buffer that they are lent.
struct Outputs;

impl Buffer for Inputs {
    ghost size = { input_size };

    ghost used = { λ request _. input_size request };

    fn size(request: Request) -> usize {
        request.input_size()
    }

    fn used(request: Request, _answer: Answer) -> usize {
        request.input_size()
    }
}

impl Buffer for Outputs {
    ghost size = { output_size };

    ghost used = { wrote };

    fn size(request: Request) -> usize {
        request.output_size()
    }

    fn used(request: Request, answer: Answer) -> usize {
        written(request, answer)
    }
}

/// A list of calls on a line just made: what they were handed, and what came of them. Calls and replies lie side by side, as
/// `replay` reads and fills them: pairs would be a copy of both, and so no plainer.
#[derive(Clone, Copy)]
struct Run<'a> {
    requests: &'a [Request],
    inputs: &'a [u8],
    outputs: [u8; 64],
    replies: [Result<Answer, Refusal>; 10],
    left: State,
}

impl<'a> Run<'a> {
    fn new<K: Kind + Drop>(
        kind: K,
        cipher: Misty1,
        requests: &'a [Request],
        inputs: &'a [u8],
    ) -> Result<Run<'a>, Misfit> {
        let (mut outputs, mut replies) = ([UNTOUCHED; 64], [Err(Refusal::NothingRuns); 10]);
        let left = replay(
            kind,
            cipher,
            Cbc,
            NUMBER,
            requests,
            inputs,
            &mut outputs,
            &mut replies,
        )?;
        Ok(Run {
            requests,
            inputs,
            outputs,
            replies,
            left,
        })
    }

    /// The second line's calls: one for each that this one accepted, in order.
    fn second_calls(&self, heap: Global) -> Result<Vec<Request>, AllocError>
        ensures { IfOk result (λ v. v.items ≡ calls_handed_on (zip self.now.requests.now self.now.replies)) }
    {
        let mut calls = Vec::new(heap);
        for (request, reply) in self.requests.iter().zip(&self.replies) {
            if let Ok(answer) = reply {
                calls.push(handed_on(*request, written(*request, *answer)))?;
            }
        }
        Ok(calls)
    }

    /// What the accepted calls used of a buffer.
    fn used_bytes<B: Buffer>(&self, heap: Global, buffer: &[u8]) -> Result<Vec<u8>, AllocError>
        ensures { IfOk result (λ v. v.items ≡ bytes_used B.size B.used (zip self.now.requests.now self.now.replies) buffer.now) }
    {
        let mut bytes = Vec::new(heap);
        let mut rest = buffer;
        for (request, reply) in self.requests.iter().zip(&self.replies) {
            let (part, more) = cut(rest, B::size(*request));
            if let Ok(answer) = reply {
                let (used, _) = cut(part, B::used(*request, *answer));
                bytes.extend_from_slice(used)?;
            }
            rest = more;
        }
        Ok(bytes)
    }

    /// The bytes that the accepted calls wrote.
    fn bytes_written(&self, heap: Global) -> Result<Vec<u8>, AllocError>
        ensures { IfOk result (λ v. v.items ≡ bytes_written_by (zip self.now.requests.now self.now.replies) self.now.outputs) }
    {
        self.used_bytes::<Outputs>(heap, &self.outputs)
    }

    /// The bytes that the accepted calls took.
    fn bytes_taken(&self, heap: Global) -> Result<Vec<u8>, AllocError>
        ensures { IfOk result (λ v. v.items ≡ bytes_taken_by (zip self.now.requests.now self.now.replies) self.now.inputs.now) }
    {
        self.used_bytes::<Inputs>(heap, self.inputs)
    }

    /// Each call with its reply and its bytes, and where the list leaves the line.
    fn tell(&self, rt: &HostRuntime) -> io::Result<()> {
        let (mut unread, mut unwritten) = (self.inputs, &self.outputs[..]);
        for (request, reply) in self.requests.iter().zip(&self.replies) {
            let (input, more_input) = cut(unread, request.input_size());
            let (output, more_output) = cut(unwritten, request.output_size());
            let (call, answer) = (Call(*request), Reply(*reply));
            println!(rt; "  {call}: {answer}")?;
            if !input.is_empty() {
                let (input, output) = (Blocks(input, " "), Blocks(output, " "));
                println!(rt; "    in   {input}\n    out  {output}")?;
            }
            (unread, unwritten) = (more_input, more_output);
        }
        let counts = Counts(self.left);
        println!(rt; "  counts after the list: {counts}\n")
    }
}

/// A list of calls on a sealing line, some of them refused, and the list that follows from it on an opening line.
pub(crate) fn lists(rt: &HostRuntime, cipher: Misty1) -> Result<(), Trouble> {
    let heap = rt.alloc();
    let first = Run::new(Sealing, cipher, &CALLS, &INPUTS)?;
    println!(rt;
        "\n5. A list of calls, and the list that undoes it\n\n\
        Both lists are replayed in the mode cbc. Each byte of room holds {UNTOUCHED:02x} before the calls.\n\n\
        Sealing line {NUMBER}"
    )?;
    first.tell(rt)?;
    let (calls, sealed) = (first.second_calls(heap)?, first.bytes_written(heap)?);
    let plain = first.bytes_taken(heap)?;
    let second = Run::new(Opening, cipher, &calls, &sealed)?;
    println!(rt;
        "The second list has the calls that were accepted, with the same start values and slips,\n\
        and the bytes that they wrote.\n\n\
        Opening line {NUMBER}"
    )?;
    second.tell(rt)?;
    let opened = second.bytes_written(heap)?;
    let (back, alike) = (word(opened == plain), word(first.left == second.left));
    println!(rt;
        "Comparison\n\
        \x20 bytes written by the opening line equal the bytes taken by the sealing line: {back}\n\
        \x20 register and counts of both lines equal: {alike}"
    )?;
    Ok(())
}
