// The blocks of a file through a mode.
ghost use Rattle.std.specs.Prelude.{◌≡◌, ◌≤◌, length};
ghost use Rattle.std.specs.List.{flat_map};
ghost use Rattle.block.specs.Block.{bytes_of, blocks_of};
ghost use Rattle.stream.specs.Stream.{step_through, outs, last_register, last_of, last_bytes, fitting, overwritten};

use crate::BlockMode;
use crate::kind::Kind;
use crate::last::{Last, write_last};
use cipher::Cipher;
use mode::Mode;

impl<K: Kind, C: Cipher, M: Mode> BlockMode<K, C, M> {
    /// A cipher in a mode, in the direction of the kind.
    pub fn new(kind: K, cipher: C, mode: M) -> Self
        ensures kind { result.kind ≡ kind }
        ensures cipher { result.cipher ≡ cipher }
        ensures mode { result.mode ≡ mode }
    {
        BlockMode { kind, cipher, mode }
    }

    /// Whether the blocks are opened; where they are not, they are sealed.
    pub fn opens(&self) -> bool
        ensures { result ≡ K.Kind.opening self.now.kind }
    {
        self.kind.opens()
    }

    /// The same, borrowed, with the kind asked once which way it goes: a kind of one's own may take its time to tell.
    pub fn directed(&self) -> BlockMode<bool, &C, &M>
        ensures kind { result.kind ≡ K.Kind.opening self.now.kind }
        ensures cipher { result.cipher.now ≡ self.now.cipher }
        ensures mode { result.mode.now ≡ self.now.mode }
    {
        BlockMode {
            kind: self.kind.opens(),
            cipher: &self.cipher,
            mode: &self.mode,
        }
    }

    /// The whole blocks of `input`, first to last, each through the step to the front of `output`. Each takes the register
    /// that the one before it left, the first one `start`; the last one's is answered. What `output` has no room for is not
    /// taken.
    pub fn pass(&self, start: u64, input: &[u8], output: &mut [u8]) -> u64
        ensures register { result ≡ last_register (step_through K.Kind.opening M.Mode.steps C.Cipher.meaning self.now) start (blocks_of (fitting input.now output.old)) }
        ensures out { output.new ≡ overwritten (flat_map bytes_of (outs (step_through K.Kind.opening M.Mode.steps C.Cipher.meaning self.now) start (blocks_of (fitting input.now output.old)))) output.old }
    {
        // The blocks of an input that the output has room for.
        fn blocks<K: Kind, C: Cipher, M: Mode>(
            through: &BlockMode<K, C, M>,
            start: u64,
            input: &[u8],
            output: &mut [u8],
        ) -> u64
            requires { length input.now ≤ length output.old }
            ensures register { result ≡ last_register (step_through K.Kind.opening M.Mode.steps C.Cipher.meaning through.now) start (blocks_of input.now) }
            ensures out { output.new ≡ overwritten (flat_map bytes_of (outs (step_through K.Kind.opening M.Mode.steps C.Cipher.meaning through.now) start (blocks_of input.now))) output.old }
        {
            let mut register = start;
            let mut rest = input;
            // By rule the blocks are taken by a pattern of eight named bytes and the rest, which asks for a `while let`.
            while let [b0, b1, b2, b3, b4, b5, b6, b7, more @ ..] = rest {
                let taken = block::from_bytes([*b0, *b1, *b2, *b3, *b4, *b5, *b6, *b7]);
                let (given, next) = K::step(through, register, taken);
                // By place: after a loop over `output.chunks_exact_mut(8)` no proof knows what the chunks hold (tried).
                let at = input.len() - rest.len();
                output[at..at + 8].copy_from_slice(&block::to_bytes(given));
                register = next;
                rest = more;
            }
            register
        }

        let room = input.len().min(output.len());
        blocks(&self.directed(), start, &input[0..room], output)
    }

    /// A file's last block through the step; none where `input` is no tail, or no block.
    pub fn last_block(&self, register: u64, input: &[u8]) -> Option<Last>
        ensures { result ≡ last_of (K.Kind.opening self.now.kind) (step_through K.Kind.opening M.Mode.steps C.Cipher.meaning self.now) register input.now }
    {
        K::last_block(self, register, input)
    }

    /// Writes what the end of a file gives, the sealed block or the tail alone, as far as `output` has room for it.
    pub fn write_last(&self, last: Option<Last>, output: &mut [u8])
        ensures { output.new ≡ overwritten (fitting (last_bytes (K.Kind.opening self.now.kind) last) output.old) output.old }
    {
        write_last(self.kind.opens(), last, output);
    }
}
