//! The second program: the call of bridge_command over standard input, output and error, with its status as the exit
//! status. A crate is either a library or a program, so the call itself is not here.
#![tactic(auto)]

use bridge_command::{Status, bridge};
use dccp_io::{StdSink, StdSource, write_all};
use std::alloc::AllocError;
use std::env;
use std::io::ErrorKind;
use std::process::ExitCode;

fn main(rt: HostRuntime) -> ExitCode {
    let mut input = StdSource::new(rt.stdin());
    let mut output = StdSink::new(rt.stdout());
    let mut errors = StdSink::new(rt.stderr());
    let status = match words_of(&rt) {
        Ok(words) => bridge(rt.alloc(), &words, &mut input, &mut output, &mut errors),
        Err(AllocError) => Status::Memory,
    };
    // If this cannot be written, the status shows it.
    let _ = write_all(&mut errors, told(status));
    code(status)
}

// What standard error says about a status with which the output may be only a prefix (own).
fn told(status: Status) -> &'static [u8] {
    match status {
        Status::Read => b"dccp_bridge: the input could not be read\n",
        Status::Write => b"dccp_bridge: the output could not be written\n",
        Status::Memory => b"dccp_bridge: no memory was left\n",
        Status::Done | Status::Input | Status::Words => b"",
    }
}

// The words after the program's name. If one is not UTF-8, they are none of the forms; nor is a call without words.
fn words_of(rt: &HostRuntime) -> Result<Vec<String>, AllocError> {
    let mut words = Vec::new(rt.alloc());
    let all = match env::args(rt) {
        Ok(all) => all,
        Err(error) if error.kind() == ErrorKind::InvalidData => return Ok(words),
        Err(_) => return Err(AllocError),
    };
    for word in all.skip(1) {
        words.push(word)?;
    }
    Ok(words)
}

// The exit status of a call's status.
fn code(status: Status) -> ExitCode {
    ExitCode::from(status.number())
}
