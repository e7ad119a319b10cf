// Sessions: a line together with the slip of its running file.
#![tactic(auto)]

mod calls;
pub mod ends;
mod foreign;
mod hand_back;

ghost use Rattle.session.specs.Slips.{IsKept};

use cipher::Cipher;
use line::Line;
use line::kind::Kind;
use line::slip::Slip;
use mode::Mode;

/// A line that keeps the slip of its running file itself. So its calls neither take nor answer a slip, a function that holds a
/// session may stop at any place, and a file that still runs is abandoned as the session is dropped.
pub struct Session<K: Kind + Drop, C: Cipher + Drop, M: Mode + Drop> {
    line: Line<K, C, M>,
    slip: Option<Slip>,
    ghost kept: { IsKept line slip },
}

impl<K: Kind + Drop, C: Cipher + Drop, M: Mode + Drop> Drop for Session<K, C, M> {
    /// Gives the running file up, so that its slip is spent.
    fn drop(self) {
        let Session { mut line, slip } = self;
        if let Some(slip) = slip {
            // It is the running file's own, so it is taken. (No `unwrap`: an error would hold the slip.)
            match line.abandon(slip) {
                Ok(_) => {}
                Err(_) => unreachable!(),
            }
        }
    }
}
