//! Two servers in one process, whose clients send a greeting and close. One is a server of one connection. The other is
//! a server of many peers, at which a second client finds no place, since there may be only one flow. It prints what
//! each server got, and then the Reset Code that the second client got.
//!
//! It is the program of docs/USING.md, to read and to copy from, and has no contract. Its wires are in memory, since
//! crates open no socket. It takes memory for each frame on them.
#![tactic(auto)]

mod client;
mod many;
mod one;
mod wire;

use crate::many::ServerOfMany;
use crate::one::ServerOfOne;
use std::process::ExitCode;

// Prints what a server got. Returns whether it was printed.
fn print(rt: &HostRuntime, got: &[u8]) -> bool {
    println!(rt; "{} bytes: {:?}", got.len(), got).is_ok()
}

fn greet_one(rt: &HostRuntime) -> bool {
    let mut server = ServerOfOne::new(rt.alloc());
    one::talk(rt.alloc(), &mut server).is_some() && print(rt, &server.got)
}

fn greet_many(rt: &HostRuntime) -> bool {
    let mut server = ServerOfMany::new(rt.alloc());
    match many::talk(rt.alloc(), &mut server) {
        Some(code) => {
            print(rt, &server.got) && println!(rt; "the other was told {}", code).is_ok()
        }
        None => false,
    }
}

fn main(rt: HostRuntime) -> ExitCode {
    if greet_one(&rt) && greet_many(&rt) {
        ExitCode::SUCCESS
    } else {
        ExitCode::FAILURE
    }
}
