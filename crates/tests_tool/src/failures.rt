//! Streams that fail at each of their calls in turn, in all forms of both tools.
//!
//! The streams say whether one of their calls failed. If one did, a tool ends with the status of a failed read or write
//! and has written a prefix of its text; otherwise it ends as usual.
use crate::bridge::CALLS;
use crate::calls::{CallEnd, Streams, Tool};
use crate::cases::{Case, Way, cases_come, end_over};
use crate::pieces::CAPTURES;
use dccp_command::Status;
use std::alloc::Global;
use std::test::Fail;
use std::thread::Threads;

// For each form, calls that are done and, if there is one, a call whose input is refused, with their results if nothing
// fails. In the third, Mandatory is at the end of the options, with nothing after it.
const FORMS: &str = "\
~ run\n\
plain\nopen\ndeliver c0\ndeliver s0\ndeliver c1\n\
=> Done\n\
2 open: ok\n\
sent c0 9c401389050031ec01000000000003e80000002a\n\
3 deliver c0: took\n\
sent s0 13899c400700261403000000000007d000000000000003e80000002a\n\
4 deliver s0: took\n\
sent c1 9c4013890600234107000000000003e900000000000007d0\n\
5 deliver c1: took\n\
sent s1 13899c400600234007000000000007d100000000000003e9\n\
end client PARTOPEN window 4 flight 0 1=2/2 2=0/0 3=100/100 4=0/0 5=2/2 6=0/0 7=0/0 8=0/0 9=0/0\n\
end server OPEN window 4 flight 0 1=2/2 2=0/0 3=100/100 4=0/0 5=2/2 6=0/0 7=0/0 8=0/0 9=0/0\n\
~ run\n\
plain\nopen\nplain\nopen\nopen\nopen\n\
=> Input\n\
2 open: ok\n\
sent c0 9c401389050031ec01000000000003e80000002a\n\
line 3 column 1: HeaderLate\n\
~ replay,--side,server,--plain\n\
seal 9c4013890600000001000000000003e80000002a00000001\n\
=> Done\n\
1: sent reset 5 1 0 0\n\
sent s0 13899c400700153d0f000000000007d000000000000003e805010000\n\
end server CLOSED window 4 flight 0 1=2/2 2=0/0 3=100/100 4=0/0 5=2/2 6=0/0 7=0/0 8=0/0 9=0/0\n\
~ replay,--side,server,--plain\n\
seal 9c4013890600000001000000000003e80000002a01000000\n\
=> Done\n\
1: took\n\
sent s0 13899c400700261403000000000007d000000000000003e80000002a\n\
end server RESPOND window 4 flight 0 1=2/2 2=0/0 3=100/100 4=0/0 5=2/2 6=0/0 7=0/0 8=0/0 9=0/0\n\
~ replay,--side,server,--plain\n\
seal 9c4013890600000001000000000003e80000002a20010000\n\
=> Done\n\
1: took\n\
sent s0 13899c400700261403000000000007d000000000000003e80000002a\n\
end server RESPOND window 4 flight 0 1=2/2 2=0/0 3=100/100 4=0/0 5=2/2 6=0/0 7=0/0 8=0/0 9=0/0\n\
~ replay,--side,server,--plain\n\
9c4013890503000001000000000003e80000002a01020304050607\n\
=> Done\n\
1: dropped CoverageTooLarge\n\
end server LISTEN window 4 flight 0 1=2/2 2=0/0 3=100/100 4=0/0 5=2/2 6=0/0 7=0/0 8=0/0 9=0/0\n\
~ replay,--side=server\n\
00\nseal 0011223344556\nseal 00\n\
=> Input\n\
1: dropped Short\nline 2 column 19: BadHex\n\
~ listen,--most,1\n\
10.0.0.3:40000 close\n10.0.0.1:40000 seal 9c4013890500000001000000000003e80000002a\n\
=> Done\n\
1 10.0.0.3:40000: refused NoFlow\n\
2 10.0.0.1:40000: took\n\
sent 10.0.0.1:40000 13899c400700261403000000000007d000000000000003e80000002a\n\
flows 1\n\
flow 10.0.0.1:40000 RESPOND\n\
~ listen,--most=1\n\
10.0.0.3:40000 close\n10.0.0.3 close\n10.0.0.3:40000 walk\n\
=> Input\n\
1 10.0.0.3:40000: refused NoFlow\nline 2 column 1: BadPeer\n\
~ ecn\n\
send 1\ndeliver 0\nreport\nforge 0\n\
=> Done\n\
1 send 1: ok\n\
2 deliver 0: new\n\
3 report: vector 39 00\n\
4 forge 0: unfit\n\
sent 1 reports 1\n\
~ ecn\n\
send 1\nmark 1\nsend 2\n\
=> Input\n\
1 send 1: ok\nline 2 column 6: NoSuchFrame\n\
~ campaign,--first,1,--seeds,3,--events,1,--workers,2\n\
=> Done\n\
seeds 3\nevents 3\nclient_frames 3\nserver_frames 0\ntook 0\ndelivered 0\ndropped 0\n\
synced 0\nwas_reset 0\nsent_reset 0\nrefused 0\nsettled 48\n";

// More calls than any case here makes.
const MOST_CALLS: u64 = 1000;

fn wanted(ended: &CallEnd, status: Status) -> Status {
    if ended.failed_reads != 0 {
        Status::Read
    } else if ended.failed_writes != 0 {
        Status::Write
    } else {
        status
    }
}

// Whether a call that ends with this status if nothing fails ended as it has to: with all of the text, or, if a read or
// a write failed, with a prefix that lacks something. If the second tool fails at the read that would find the input's
// end, nothing may be left to write.
fn is_told(ended: &CallEnd, tool: Tool, status: Status) -> bool {
    let all_is_told = tool == Tool::Bridge && ended.failed_reads != 0;
    let is_whole = ended.begins && !all_is_told;
    ended.status == wanted(ended, status) && ended.is_front && is_whole != ended.has_failed()
}

// How many bytes a call gives or takes for a tool; the inputs of the second tool are longer.
fn piece_of(tool: Tool) -> usize {
    match tool {
        Tool::Dccp => 7,
        Tool::Bridge => 50,
    }
}

// Whether it ends as it has to when each read fails in turn, or each write, up to the first number that no call has.
fn holds_in_turn<R: Threads + Sync>(
    rt: &R,
    alloc: Global,
    case: &Case<'_>,
    of_reads: bool,
) -> Result<bool, Fail> {
    for number in 1..MOST_CALLS {
        let streams = if of_reads {
            Streams::failing(piece_of(case.tool), Some(number), None)
        } else {
            Streams::failing(piece_of(case.tool), None, Some(number))
        };
        let ended = end_over(rt, alloc, &streams, case)?;
        let holds = is_told(&ended, case.tool, case.status);
        if !holds || !ended.has_failed() {
            return Ok(holds);
        }
    }
    Ok(false)
}

// A sink that takes one byte a call, and whose call with this number fails.
fn by_the_byte(write: u64) -> Streams {
    Streams {
        failing_read: None,
        failing_write: Some(write),
        given: 4096,
        taken: 1,
    }
}

// Whether the write of the last byte fails after all others, and no further write is made.
fn holds_for_last_byte<R: Threads + Sync>(
    rt: &R,
    alloc: Global,
    case: &Case<'_>,
) -> Result<bool, Fail> {
    let size = case.text.len() as u64;
    let last = end_over(rt, alloc, &by_the_byte(size), case)?;
    let more = end_over(rt, alloc, &by_the_byte(size.saturating_add(1)), case)?;
    let holds = is_told(&last, case.tool, case.status) && is_told(&more, case.tool, case.status);
    Ok(holds && last.has_failed() && !more.has_failed())
}

/// Whether it ends as it has to when each read fails in turn, each write, and the write of the last byte.
pub(crate) fn fails_in_turn<R: Threads + Sync>(
    rt: &R,
    alloc: Global,
    case: &Case<'_>,
) -> Result<bool, Fail> {
    Ok(
        holds_in_turn(rt, alloc, case, true)?
            && holds_in_turn(rt, alloc, case, false)?
            && holds_for_last_byte(rt, alloc, case)?,
    )
}

#[test]
fn each_read_and_write_fails_in_turn(rt: HostRuntime) -> Result<(), Fail> {
    cases_come(&rt, rt.alloc(), (Tool::Dccp, Way::Failing), FORMS)
}

#[test]
fn each_read_and_write_of_captures_fails_in_turn(rt: HostRuntime) -> Result<(), Fail> {
    cases_come(&rt, rt.alloc(), (Tool::Dccp, Way::Failing), CAPTURES)
}

#[test]
fn each_read_and_write_of_the_second_tool_fails_in_turn(rt: HostRuntime) -> Result<(), Fail> {
    cases_come(&rt, rt.alloc(), (Tool::Bridge, Way::Failing), CALLS)
}
