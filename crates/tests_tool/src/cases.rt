//! Cases in texts, because a row of a text costs no proof. A case is `~ ` with its words, separated by commas; its
//! input from the next line on; after `=> ` the status, and after a space the line that it also reports, if there is
//! one; and from the next line on all that it writes. Captures are in hexadecimal.
use crate::calls::{CallEnd, Streams, Tool, end_of};
use crate::failures::fails_in_turn;
use dccp_command::Status;
use fault_campaign::OpenGate;
use std::alloc::Global;
use std::test::Fail;
use std::thread::Threads;

/// How cases are played.
#[derive(Clone, Copy)]
pub(crate) enum Way {
    /// Over streams of 4,096 bytes a call.
    Whole,
    /// Over streams of 1, 7 and 4,096 bytes a call.
    InPieces,
    /// Over a source whose first read would fail.
    Unread,
    /// Over streams that fail at each of their calls in turn.
    Failing,
}

const UNREAD: Streams = Streams {
    failing_read: Some(1),
    failing_write: None,
    given: 4096,
    taken: 4096,
};

/// A call with its input, and its result if nothing fails.
#[derive(Clone, Copy)]
pub(crate) struct Case<'a> {
    pub(crate) tool: Tool,
    pub(crate) words: &'a str,
    pub(crate) input: &'a [u8],
    pub(crate) status: Status,
    pub(crate) text: &'a [u8],
    pub(crate) line: &'a str,
}

fn status_of(name: &str) -> Option<Status> {
    match name {
        "Done" => Some(Status::Done),
        "Words" => Some(Status::Words),
        "Input" => Some(Status::Input),
        _ => None,
    }
}

// How a case ends: its status, and the line that it also reports, or an empty one.
fn end_in(answer: &str) -> Option<(Status, &str)> {
    match answer.split_once(" ") {
        Some((status, line)) => Some((status_of(status)?, line)),
        None => Some((status_of(answer)?, "")),
    }
}

// The words of a case, its input, how it ends and what it writes.
fn parts_of(case: &str) -> Option<(&str, &str, (Status, &str), &str)> {
    let (words, rest) = case.split_once("\n")?;
    let (input, answer) = rest.split_once("=> ")?;
    let (end, text) = answer.split_once("\n")?;
    Some((words, input, end_in(end)?, text))
}

fn reads_capture(words: &str) -> bool {
    words == "show"
        || words == "unwrap"
        || words.starts_with("json")
        || words.starts_with("frames,")
}

fn writes_capture(words: &str) -> bool {
    words == "capture" || words == "unwrap"
}

fn bytes_of(alloc: Global, is_capture: bool, text: &str) -> Result<Vec<u8>, Fail> {
    if is_capture {
        Ok(hex::decode(alloc, text)?)
    } else {
        Ok(text.as_bytes().to_vec(alloc)?)
    }
}

/// How a case ends over these streams.
pub(crate) fn end_over<R: Threads + Sync>(
    rt: &R,
    alloc: Global,
    streams: &Streams,
    case: &Case<'_>,
) -> Result<CallEnd, Fail> {
    let call = (case.tool, case.words, case.input);
    end_of(rt, alloc, &OpenGate, streams, call, (case.text, case.line))
}

fn comes_over<R: Threads + Sync>(
    rt: &R,
    alloc: Global,
    streams: &Streams,
    case: &Case<'_>,
) -> Result<bool, Fail> {
    let ended = end_over(rt, alloc, streams, case)?;
    Ok(ended.is(case.status))
}

fn comes_in_pieces<R: Threads + Sync>(
    rt: &R,
    alloc: Global,
    case: &Case<'_>,
) -> Result<bool, Fail> {
    for most in &[1, 7, 4096] {
        if !comes_over(rt, alloc, &Streams::of(*most), case)? {
            return Ok(false);
        }
    }
    Ok(true)
}

fn comes_so<R: Threads + Sync>(
    rt: &R,
    alloc: Global,
    way: Way,
    case: &Case<'_>,
) -> Result<bool, Fail> {
    match way {
        Way::Whole => comes_over(rt, alloc, &Streams::of(4096), case),
        Way::InPieces => comes_in_pieces(rt, alloc, case),
        Way::Unread => comes_over(rt, alloc, &UNREAD, case),
        Way::Failing => fails_in_turn(rt, alloc, case),
    }
}

fn case_comes<R: Threads + Sync>(
    rt: &R,
    alloc: Global,
    (tool, way): (Tool, Way),
    case: &str,
) -> Result<bool, Fail> {
    let (words, input, (status, line), text) = parts_of(case).ok_or("a case")?;
    let input = bytes_of(alloc, reads_capture(words), input)?;
    let text = bytes_of(alloc, writes_capture(words), text)?;
    let case = Case {
        tool,
        words,
        input: &input,
        status,
        text: &text,
        line,
    };
    comes_so(rt, alloc, way, &case)
}

/// Plays the cases of a text in this way, and fails at the first with another result.
pub(crate) fn cases_come<R: Threads + Sync>(
    rt: &R,
    alloc: Global,
    (tool, way): (Tool, Way),
    cases: &str,
) -> Result<(), Fail> {
    for case in cases.split("~ ") {
        if !case.is_empty() && !case_comes(rt, alloc, (tool, way), case)? {
            return Err(Fail::new(format_args!("{case}")));
        }
    }
    Ok(())
}
