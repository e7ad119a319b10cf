// A pay file carried through the lines of the library from beginning to end, with a note for each step.
#![tactic(auto)]

mod carry;
mod list;
mod pay;
mod refusals;
mod tell;
mod text;
mod trouble;

use misty1::Misty1;
use mode::cbc::Cbc;
use mode::cfb::Cfb;
use mode::ctr::Ctr;
use mode::ecb::Ecb;
use mode::ofb::Ofb;
use pay::KEY;
use std::process::ExitCode;
use trouble::Trouble;

/// The pay file in all the modes.
// What it holds on the stack is to be gone before the notes that follow.
#[inline(never)]
fn modes(rt: &HostRuntime, cipher: Misty1) -> Result<(), Trouble> {
    println!(rt;
        "\n2. Through both lines in the mode cbc, call by call\n\n\
        cbc: each block is combined with the sealed block before it, and then enciphered.\n\
        A begun file has a slip, which its end or its abandoning takes.\n\
        U: blocks used under the key. F: files begun. B: blocks of this file. R: register.\n"
    )?;
    tell::in_full(rt, cipher, Cbc)?;
    println!(rt; "\n3. Through both lines in the other modes, with the counts after the end")?;
    tell::in_short(rt, cipher, "ecb: each block by itself", Ecb)?;
    tell::in_short(
        rt,
        cipher,
        "cfb: each block is combined with the sealed block before it, enciphered",
        Cfb,
    )?;
    tell::in_short(
        rt,
        cipher,
        "ofb: each block is combined with the register, which is enciphered again for each",
        Ofb,
    )?;
    tell::in_short(
        rt,
        cipher,
        "ctr: each block is combined with a counter, enciphered",
        Ctr,
    )
}

/// All the notes.
fn walk(rt: &HostRuntime) -> Result<(), Trouble> {
    let cipher = Misty1::new(&KEY)?;
    tell::heading(rt)?;
    modes(rt, cipher)?;
    refusals::refusals(rt, cipher)?;
    list::lists(rt, cipher)
}

fn main(rt: HostRuntime) -> ExitCode {
    match walk(&rt) {
        Ok(()) => ExitCode::SUCCESS,
        Err(trouble) => {
            let _ = eprintln!(rt; "walkthrough: {trouble}");
            ExitCode::FAILURE
        }
    }
}
