//! How long it takes to read a packet (own): decoding, listing its options and checking its sum, over frames of worked
//! runs and over a full frame. One word says how many rounds; the figures go to standard error.
//!
//! `marks` and a number of rounds makes the calls of received numbers and of congestion control, so that what they
//! allocate can be counted. `ratios` and a number of rounds times marks, the writing of Ack Vectors and the taking of
//! reports, `nonces` those of ECN-capable ends. `runs` and a number of rounds times marks in several orders, over both
//! ways to keep runs, and `inboxes` the calls of a bounded inbox.
//!
//! `requests`, `options`, `faults` and `acks` and a number of datagrams has them come at a listener, `end`,
//! `end-options` and `end-acks` the same at one end, `end-refusals` Acks at one that refuses them, and `frames` makes
//! datagrams alone.
//!
//! Nothing is claimed of what it prints. What a call of an end costs is measured over the library for C.
#![tactic(auto)]

mod arrivals;
mod figures;
mod frames;
mod inboxes;
mod marks;
mod nonces;
mod passes;
mod ratios;
mod runs;

use crate::arrivals::Load;
use std::{env, io};

// What is to be done.
#[derive(Clone, Copy)]
enum Form {
    Packets,
    Marks,
    Ratios,
    Nonces,
    Runs,
    Inboxes,
    Arrivals(Load),
}

const FORMS: [(&str, Form); 14] = [
    ("marks", Form::Marks),
    ("ratios", Form::Ratios),
    ("nonces", Form::Nonces),
    ("runs", Form::Runs),
    ("inboxes", Form::Inboxes),
    ("requests", Form::Arrivals(Load::Requests)),
    ("options", Form::Arrivals(Load::Options)),
    ("faults", Form::Arrivals(Load::Faults)),
    ("acks", Form::Arrivals(Load::Acks)),
    ("end", Form::Arrivals(Load::End)),
    ("end-options", Form::Arrivals(Load::EndOptions)),
    ("end-acks", Form::Arrivals(Load::EndAcks)),
    ("end-refusals", Form::Arrivals(Load::EndRefusals)),
    ("frames", Form::Arrivals(Load::Frames)),
];

fn form_of(word: &str) -> Option<Form> {
    for (name, form) in &FORMS {
        if word == *name {
            return Some(*form);
        }
    }
    None
}

// What is asked for: a form, and how often.
#[derive(Clone, Copy)]
struct Task {
    form: Form,
    rounds: u32,
}

impl Task {
    // A word names a form, or says how often; once where it is neither.
    fn hear(&mut self, word: &str) {
        match form_of(word) {
            Some(form) => self.form = form,
            None => self.rounds = word.parse::<u32>().unwrap_or(1),
        }
    }
}

fn asked(rt: &HostRuntime) -> io::Result<Task> {
    let mut task = Task {
        form: Form::Packets,
        rounds: 1,
    };
    let mut words = env::args(rt)?;
    let _program = words.next();
    for word in words {
        task.hear(&word);
    }
    Ok(task)
}

fn main(rt: HostRuntime) -> io::Result<()> {
    let Task { form, rounds } = asked(&rt)?;
    match form {
        Form::Packets => passes::all(&rt, rounds),
        Form::Marks => marks::all(&rt, rounds),
        Form::Ratios => ratios::all(&rt, rounds),
        Form::Nonces => nonces::all(&rt, rounds),
        Form::Runs => runs::all(&rt, rounds),
        Form::Inboxes => inboxes::all(&rt, rounds),
        Form::Arrivals(load) => arrivals::all(&rt, load, rounds),
    }
}
