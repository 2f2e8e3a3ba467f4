//! An end of a replay with a receive buffer: frames arrive, and an application reads, or stops reading.
ghost use Rattle.std.specs.Prelude.{◌≡◌, ◌++◌, ◌≤◌, decimal, length, IfOk, OnOk};
ghost use Rattle.ccid_two.specs.Kinds.{kinds_control};
ghost use Rattle.data_dropped.specs.Buffering.{buffers};
ghost use Rattle.schedule_text.specs.Results.{HasItsData};
ghost use Rattle.tool_jobs.specs.Buffered.{arrival_line, buffered_end, dropped_text, item_read, read_item_line, reading_stopped};
ghost use Rattle.tool_jobs.specs.Replay.{Heeds};

use crate::replay::player::{ReplayEnd, put_open_line, replay_config};
use ccid_two::Kinds;
use data_dropped::{Arrival, BufferedEnd, Got};
use dccp_endpoint::Endpoint;
use dccp_packets::Outbox;
use schedule_text::print_result;
use seq_circle::NoMemory;
use std::alloc::Global;
use tool_text::{is_text, put, put_counted, put_hex_or_dash, put_number};
use world_events::{Seen, Side};

/// A new end of a side, with its offers or without, and an empty inbox for `capacity` packets.
pub(crate) fn buffered_end(
    alloc: Global,
    side: Side,
    plain: bool,
    capacity: u16,
) -> Result<BufferedEnd<Kinds>, NoMemory>
    requires some { 1 ≤ capacity }
    requires few { capacity ≤ 1024 }
    ensures { IfOk result (λ end. end ≡ buffered_end side plain capacity) }
{
    let congestion = Kinds::new(alloc)?;
    BufferedEnd::new(alloc, replay_config(side, plain), congestion, capacity)
}

impl ReplayEnd for BufferedEnd<Kinds> {
    ghost use Rattle.tool_jobs.specs.Buffered.{buffered_acts};

    ghost acts = { buffered_acts };

    fn begin(&mut self, out: &mut Outbox, text: &mut Vec<u8>) -> Result<(), NoMemory> {
        let answer = self.open(out);
        put_open_line(text, answer)
    }

    fn hear(
        &mut self,
        number: u64,
        bytes: &[u8],
        out: &mut Outbox,
        text: &mut Vec<u8>,
    ) -> Result<(), NoMemory> {
        let got = arrive(self, bytes, out);
        put_arrival(number, &got, bytes, text)
    }

    fn is_own(line: &[u8]) -> bool {
        is_text(line, b"read") || is_text(line, b"stop")
    }

    fn heed(&mut self, number: u64, line: &[u8], text: &mut Vec<u8>) -> Result<(), NoMemory> {
        if is_text(line, b"read") {
            read(self, number, text)
        } else {
            stop(self, number, text)
        }
    }

    fn standing(&self) -> &Endpoint<Kinds> {
        self.end()
    }
}

// Lets the application take the first item, and puts the line for that.
fn read(end: &mut BufferedEnd<Kinds>, number: u64, text: &mut Vec<u8>) -> Result<(), NoMemory>
    ensures { OnOk result (Heeds (item_read end.old number) end.new text.old.items text.new.items) }
{
    let mut data = [0; 1024];
    match end.take(&mut data) {
        Some((_, count)) => put_item(text, number, &data[..count]),
        None => put_numbered(text, number, b": empty\n"),
    }
}

// Lets the application stop listening, and puts the line for that.
fn stop(end: &mut BufferedEnd<Kinds>, number: u64, text: &mut Vec<u8>) -> Result<(), NoMemory>
    ensures { OnOk result (Heeds (reading_stopped end.old number) end.new text.old.items text.new.items) }
{
    end.stop();
    put_numbered(text, number, b": ok\n")
}

// Puts a line's number, and a text after it.
fn put_numbered(text: &mut Vec<u8>, number: u64, rest: &[u8]) -> Result<(), NoMemory>
    ensures { OnOk result (text.new.items ≡ text.old.items ++ decimal number ++ rest.now) }
{
    put_number(text, number)?;
    put(text, rest)
}

// Puts the line of the data that the application reads.
fn put_item(text: &mut Vec<u8>, number: u64, data: &[u8]) -> Result<(), NoMemory>
    ensures { OnOk result (text.new.items ≡ text.old.items ++ read_item_line number data.now) }
{
    put_numbered(text, number, b": read ")?;
    put_hex_or_dash(text, data)?;
    put(text, b"\n")?;
    Ok(())
}

// Puts the line of data that were dropped for the reason of this code.
fn put_dropped(text: &mut Vec<u8>, number: u64, code: u8) -> Result<(), NoMemory>
    ensures { OnOk result (text.new.items ≡ text.old.items ++ dropped_text number code) }
{
    put_number(text, number)?;
    put_counted(text, b": took dropped ", u64::from(code))?;
    put(text, b"\n")?;
    Ok(())
}

// Puts the line of what became of a frame.
fn put_arrival(number: u64, got: &Got, bytes: &[u8], text: &mut Vec<u8>) -> Result<(), NoMemory>
    requires { HasItsData bytes.now got.now.outcome }
    ensures { OnOk result (text.new.items ≡ text.old.items ++ arrival_line number bytes.now got.now.outcome got.now.arrival) }
{
    match got.arrival {
        Some(Arrival::Dropped(code)) => put_dropped(text, number, code),
        Some(Arrival::Kept) | None => {
            print_result(number, &Seen::Received(got.outcome), bytes, text)
        }
    }
}

// Only the step of the end with its inbox. Data that it delivers are within the bytes.
fn arrive(end: &mut BufferedEnd<Kinds>, bytes: &[u8], out: &mut Outbox) -> Got
    requires { length bytes.now ≤ 2044 }
    ensures step { record { after = end.new; frame = out.new; outcome = result.outcome; arrival = result.arrival } ≡ buffers kinds_control end.old bytes.now }
    ensures told { HasItsData bytes.now result.outcome }
{
    end.receive(bytes, out)
}
