// Lines: sealing and opening files under one key, block by block.
#![tactic(auto)]

mod calls;
mod opening;
mod reads;
pub mod replay;
pub mod request;
mod sealing;
pub mod slip;
mod steps;

use protocol::machine::Machine;
pub use protocol::{refusal, state};
use stream::BlockMode;
pub use stream::kind;

/// One way to a bank under one key: a cipher in a mode, with a number and its counts. It seals or opens files, one at a time.
///
/// `K` is its kind, `Sealing` or `Opening`. Only the four calls begin, put, end and abandon change a line.
#[derive(Drop)]
pub struct Line<K, C, M> {
    block_mode: BlockMode<K, C, M>,
    number: u8,
    machine: Machine,
}
