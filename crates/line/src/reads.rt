// What can be read off a line.
ghost use Rattle.std.specs.Prelude.{◌≡◌, is_some};

use crate::Line;
use crate::state::State;

impl<K, C, M> Line<K, C, M> {
    /// Where the line stands.
    pub fn state(&self) -> State
        ensures { result ≡ self.now.machine.state }
    {
        self.machine.state()
    }

    /// The line's number.
    pub fn number(&self) -> u8
        ensures { result ≡ self.now.number }
    {
        self.number
    }

    /// The register R.
    pub fn register(&self) -> u64
        ensures { result ≡ self.now.machine.state.register }
    {
        self.state().register
    }

    /// The used count U: blocks sealed or opened under the line's key.
    pub fn used(&self) -> u32
        ensures { result ≡ self.now.machine.state.used }
    {
        self.state().used
    }

    /// The files begun, F.
    pub fn files(&self) -> u16
        ensures { result ≡ self.now.machine.state.files }
    {
        self.state().files
    }

    /// The blocks B of this file.
    pub fn blocks(&self) -> u32
        ensures { result ≡ self.now.machine.state.blocks }
    {
        self.state().blocks
    }

    /// Whether a file runs.
    pub fn is_running(&self) -> bool
        ensures { result ≡ is_some self.now.machine.state.running }
    {
        self.state().running.is_some()
    }
}
