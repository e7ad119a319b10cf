// How bytes, counts, calls and replies are written.
use line::refusal::Refusal;
use line::request::Request;
use line::state::{Answer, State};
use std::fmt;

/// Bytes in hexadecimal, two digits each.
#[derive(Clone, Copy)]
pub struct Hex<'a>(pub &'a [u8]);

/// Bytes in hexadecimal, with a text between blocks.
#[derive(Clone, Copy)]
pub struct Blocks<'a>(pub &'a [u8], pub &'static str);

/// ASCII text, with a newline written as `\n`.
#[derive(Clone, Copy)]
pub struct Text<'a>(pub &'a [u8]);

/// The register and the counts of a line, and whether a file runs.
#[derive(Clone, Copy)]
pub struct Counts(pub State);

/// A call of a list.
#[derive(Clone, Copy)]
pub struct Call(pub Request);

/// What a call of a list was answered.
#[derive(Clone, Copy)]
pub struct Reply(pub Result<Answer, Refusal>);

impl fmt::Display for Hex<'_> {
    fn fmt<W: fmt::Write>(&self, f: &mut fmt::Formatter<W>) -> fmt::Result {
        for byte in self.0 {
            write!(f, "{byte:02x}")?;
        }
        Ok(())
    }
}

impl fmt::Display for Blocks<'_> {
    fn fmt<W: fmt::Write>(&self, f: &mut fmt::Formatter<W>) -> fmt::Result {
        for (i, block) in self.0.chunks(8).enumerate() {
            if i > 0 {
                f.write_str(self.1)?;
            }
            let block = Hex(block);
            write!(f, "{block}")?;
        }
        Ok(())
    }
}

impl fmt::Display for Text<'_> {
    fn fmt<W: fmt::Write>(&self, f: &mut fmt::Formatter<W>) -> fmt::Result {
        for byte in self.0 {
            match *byte {
                b'\n' => f.write_str("\\n")?,
                byte => f.write_char(char::from(byte))?,
            }
        }
        Ok(())
    }
}

impl fmt::Display for Counts {
    fn fmt<W: fmt::Write>(&self, f: &mut fmt::Formatter<W>) -> fmt::Result {
        let State {
            register,
            used,
            files,
            blocks,
            running,
        } = self.0;
        write!(f, "U={used} F={files} B={blocks} R={register:016x}, ")?;
        match running {
            Some(file) => write!(f, "file {file} runs"),
            None => f.write_str("idle"),
        }
    }
}

impl fmt::Display for Call {
    fn fmt<W: fmt::Write>(&self, f: &mut fmt::Formatter<W>) -> fmt::Result {
        match self.0 {
            Request::Begin { start } => write!(f, "begin with start value {start:016x}"),
            Request::Put { input, output } => write!(
                f,
                "put {input} bytes into {output} bytes of room"
            ),
            Request::End {
                line,
                file,
                input,
                output,
            } => write!(
                f,
                "end with slip ({line}, {file}) and {input} bytes into {output} bytes of room"
            ),
            Request::Abandon { line, file } => write!(f, "abandon with slip ({line}, {file})"),
        }
    }
}

impl fmt::Display for Reply {
    fn fmt<W: fmt::Write>(&self, f: &mut fmt::Formatter<W>) -> fmt::Result {
        match self.0 {
            Ok(answer) => write!(f, "{answer:?}"),
            Err(refusal) => {
                let number = refusal.number();
                write!(f, "refused {number}, {refusal:?}")
            }
        }
    }
}

/// The word for an answer: a `bool` prints as true or false.
pub(crate) fn word(yes: bool) -> &'static str {
    if yes { "yes" } else { "no" }
}
