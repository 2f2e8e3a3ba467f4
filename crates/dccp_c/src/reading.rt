//! Data that wait until C reads them.
ghost use Rattle.std.specs.Prelude.{◌≡◌};
ghost use Rattle.dccp_c.specs.Doing.{end_in};
ghost use Rattle.dccp_c.specs.Reading.{data_read, held_in, read_code, stop_code, with_stop, without_first_read};

use crate::codes::{DONE, NOT_MADE, NOTHING_DUE};
use crate::end::End;
use std::alloc::Global;

/// Data as C reads them: the first `length` bytes, and the number of the packet that brought them.
#[repr(C)]
#[derive(Drop)]
pub struct ReadData {
    /// How many bytes there are, at most 2,032.
    pub length: usize,
    /// The sequence number of their packet.
    pub number: u64,
    /// The bytes. Those after the length have no meaning.
    pub bytes: [u8; 2032],
}

/// Takes the data that have waited longest in the inbox. Returns DONE, NOT_MADE, or NOTHING_DUE if none wait; then
/// `data` is unchanged.
#[unsafe(no_mangle)]
pub extern "C" fn dccp_read(end: &mut End, alloc: Global, data: &mut ReadData) -> u32
    ensures end { end_in end.new.kept.value ≡ without_first_read (end_in end.old.kept.value) }
    ensures data { data.new ≡ data_read (end_in end.old.kept.value) data.old }
    ensures code { result ≡ read_code (end_in end.old.kept.value) }
{
    let Some(mut held) = end.take(alloc) else {
        return NOT_MADE;
    };
    let code = match held.intake.read(&mut data.bytes) {
        Some((number, length)) => {
            data.number = number.get();
            data.length = length;
            DONE
        }
        None => NOTHING_DUE,
    };
    end.put(held);
    code
}

/// The application stops listening: data that arrive from now on are dropped, and this is reported to the peer (RFC
/// 4340, section 11.7). Returns DONE, NOT_MADE, or NOTHING_DUE if the end has no inbox.
#[unsafe(no_mangle)]
pub extern "C" fn dccp_stop_reading(end: &mut End, alloc: Global) -> u32
    ensures end { end_in end.new.kept.value ≡ with_stop (end_in end.old.kept.value) }
    ensures code { result ≡ stop_code (end_in end.old.kept.value) }
{
    let Some(mut held) = end.take(alloc) else {
        return NOT_MADE;
    };
    let has_inbox = held.intake.stop();
    end.put(held);
    if has_inbox { DONE } else { NOTHING_DUE }
}

/// How many packets' data wait; 0 if there is no end.
#[unsafe(no_mangle)]
pub extern "C" fn dccp_held(end: &mut End, alloc: Global) -> usize
    ensures end { end.new.kept.value ≡ end.old.kept.value }
    ensures held { result ≡ held_in (end_in end.old.kept.value) }
{
    let Some(held) = end.take(alloc) else {
        return 0;
    };
    let count = held.intake.held();
    end.put(held);
    count
}
