// The command for people: reads certificates and questions, a line for each, from the file that an argument names or from standard input,
// and answers each question about the store as it stands at that line. With --plain as its first argument it writes one fact a line.
#![tactic(auto)]

use output::Output;
use std::env::{Env, FillError};
use std::{fs, io};

mod graph;
mod kernel;
mod list;
mod members;
mod power;
mod question;
mod reader;
mod say;
mod show;

// The longest name of a file.
const PATH_LENGTH: usize = 4096;

const HELP: &str = "usage: keyline [--plain] [FILE]
Reads certificates and questions from FILE or standard input, a line for each:
  NAME: ISSUER > AUDIENCE LEVEL / SUBJECT   a delegation; Relay, Read, Edit or Admin
  NAME: ISSUER revokes NAME                 a revocation
  members SUBJECT     power SUBJECT KEY     positive SUBJECT KEY
  live NAME           conveys NAME          standing NAME
  closure SUBJECT     revocations of NAME   delegations to SUBJECT AUDIENCE
  certificates        subjects              graph SUBJECT   Graphviz text
  # a comment, up to the end of the line
A question is answered from the certificates above it. --plain: one fact a line.";

fn main(rt: HostRuntime) -> io::Result<()> {
    let out = Output(&rt);
    let mut first = [0u8; PATH_LENGTH];
    let (plain, at) = match argument(&rt, 1, &mut first) {
        Ok(b"--help") => return out.println(HELP),
        Ok(b"--plain") => (true, 2),
        _ => (false, 1),
    };
    let mut name = [0u8; PATH_LENGTH];
    match argument(&rt, at, &mut name) {
        Err(FillError::NotPresent) => reader::run(&out, rt.reader(), plain),
        _ if is_given(&rt, at + 1) => out.println(HELP),
        Err(FillError::TooLong) => eprintln!(rt; "the file's name is too long"),
        Ok(name) => match str::from_utf8(name) {
            Ok(path) => match fs::open(&rt, path) {
                Ok(file) => reader::run(&out, file, plain),
                Err(e) => eprintln!(rt; "{path}: {e}"),
            },
            Err(_) => eprintln!(rt; "the file's name is not UTF-8"),
        },
    }
}

// The argument of this number, counted from 1, in the buffer.
fn argument<'a>(rt: &impl Env, i: usize, buffer: &'a mut [u8]) -> Result<&'a [u8], FillError> {
    let n = rt.arg(i, buffer)?;
    Ok(&buffer[..n])
}

fn is_given(rt: &impl Env, i: usize) -> bool {
    !matches!(rt.arg(i, &mut [0u8; 1]), Err(FillError::NotPresent))
}
