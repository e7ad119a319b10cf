// The notes on the pay file and on its way through both lines.
use crate::carry::{Carried, Passage, carry};
use crate::pay::{BODY, FILE, KEY, NUMBER, START};
use crate::text::{Blocks, Counts, Hex, Text, word};
use crate::trouble::Trouble;
use misty1::Misty1;
use mode::Mode;
use std::io;

/// What stands between blocks that are written one below another.
const BELOW: &str = "\n             ";

/// What is carried, and with what.
pub(crate) fn heading(rt: &HostRuntime) -> io::Result<()> {
    let (key, text, length) = (Hex(&KEY), Text(&FILE), FILE.len());
    let (body, tail) = FILE.split_at(BODY);
    let (body, tail) = (Blocks(body, BELOW), Hex(tail));
    println!(rt;
        "1. The pay file\n\n\
        One pay file is sealed by a sealing line and opened by an opening line.\n\
        Both lines have the number {NUMBER}, the cipher MISTY1 and the same key.\n\n\
        key          {key}\n\
        start value  {START:016x}\n\
        pay file     {text}\n\
        length       {length} bytes: 5 blocks of 8 bytes, and a tail of 3 bytes\n\
        blocks       {body}\n\
        tail         {tail}"
    )
}

/// The begin and the put of a file.
fn body(rt: &HostRuntime, input: &[u8], passage: &Passage) -> io::Result<()> {
    let (line, file) = passage.slip;
    let (begun, put, taken, length) = (
        Counts(passage.begun),
        Counts(passage.put),
        passage.taken,
        input.len(),
    );
    let (input, output) = (Blocks(input, BELOW), Blocks(&passage.body, BELOW));
    println!(rt;
        "  begin with start value {START:016x}\n\
        \x20   answer   slip ({line}, {file}): line {line}, file {file}\n\
        \x20   counts   {begun}\n\
        \x20 put {length} bytes\n\
        \x20   in       {input}\n\
        \x20   out      {output}\n\
        \x20   answer   blocks taken {taken}\n\
        \x20   counts   {put}"
    )
}

/// The sealing line's calls.
fn sealing(rt: &HostRuntime, carried: &Carried) -> io::Result<()> {
    let sealed = &carried.sealed;
    let (whole, tail) = FILE.split_at(BODY);
    let (tail, output, blocks, ended) = (
        Hex(tail),
        Hex(sealed.last),
        sealed.blocks,
        Counts(sealed.ended),
    );
    println!(rt; "Sealing line {NUMBER}")?;
    body(rt, whole, sealed)?;
    println!(rt;
        "  end with the slip and the tail, to which the line adds a pad: byte 80, and zero bytes up to 8\n\
        \x20   in       {tail}\n\
        \x20   out      {output}\n\
        \x20   answer   blocks of the file {blocks}\n\
        \x20   counts   {ended}\n"
    )
}

/// The opening line's calls.
fn opening(rt: &HostRuntime, carried: &Carried) -> io::Result<()> {
    let Carried { sealed, opened } = carried;
    let (input, output, blocks, ended) = (
        Hex(sealed.last),
        Hex(opened.last),
        opened.blocks,
        Counts(opened.ended),
    );
    let tail = opened.last.len();
    println!(rt; "Opening line {NUMBER}")?;
    body(rt, &sealed.body, opened)?;
    println!(rt;
        "  end with the slip and the last sealed block, from which the line takes the pad\n\
        \x20   in       {input}\n\
        \x20   out      {output}\n\
        \x20   answer   blocks of the file {blocks}, bytes of the tail {tail}\n\
        \x20   counts   {ended}\n"
    )
}

/// Whether the file came back, and whether the lines stood alike.
fn comparison(rt: &HostRuntime, carried: &Carried) -> io::Result<()> {
    let (whole, tail) = FILE.split_at(BODY);
    let back = word(carried.opened_to(whole, tail));
    let alike = word(carried.stood_alike());
    println!(rt;
        "  opened bytes equal the plain bytes: {back}\n\
        \x20 register and counts of both lines equal after each call: {alike}"
    )
}

/// The pay file in one mode, call by call.
pub(crate) fn in_full<M: Mode + Copy>(
    rt: &HostRuntime,
    cipher: Misty1,
    mode: M,
) -> Result<(), Trouble> {
    let (mut sealed_end, mut opened_end) = ([0; 8], [0; 8]);
    let carried = carry(cipher, mode, &mut sealed_end, &mut opened_end)?;
    sealing(rt, &carried)?;
    opening(rt, &carried)?;
    println!(rt; "Comparison")?;
    comparison(rt, &carried)?;
    Ok(())
}

/// The pay file in one mode, in short.
pub(crate) fn in_short<M: Mode + Copy>(
    rt: &HostRuntime,
    cipher: Misty1,
    name: &str,
    mode: M,
) -> Result<(), Trouble> {
    let (mut sealed_end, mut opened_end) = ([0; 8], [0; 8]);
    let carried = carry(cipher, mode, &mut sealed_end, &mut opened_end)?;
    println!(rt; "\n{name}")?;
    summary(rt, &carried)?;
    comparison(rt, &carried)?;
    Ok(())
}

/// The sealed blocks, and where both lines stand after the end.
fn summary(rt: &HostRuntime, carried: &Carried) -> io::Result<()> {
    let Carried { sealed, opened } = carried;
    let ((line, file), taken) = (sealed.slip, sealed.taken);
    let (body, last, tail) = (
        Blocks(&sealed.body, " "),
        Hex(sealed.last),
        opened.last.len(),
    );
    let (sealed, opened) = (Counts(sealed.ended), Counts(opened.ended));
    println!(rt;
        "  slip ({line}, {file}), blocks taken {taken}, bytes of the opened tail {tail}\n\
        \x20 sealed blocks {body} {last}\n\
        \x20 sealing line  {sealed}\n\
        \x20 opening line  {opened}"
    )
}
