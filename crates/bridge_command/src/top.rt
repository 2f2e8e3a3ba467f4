//! The second tool as one call: a form of its words over a source and a sink.
ghost use Rattle.std.specs.Prelude.{◌≡◌, ◌⊎◌, [], Some, None, false, true};
ghost use Rattle.dccp_io.specs.Counts.{Rose};
ghost use Rattle.bridge_command.specs.Forms.{OnBridgeInput, OnBridgeRead, bridge_accepted, bridge_reads_past, bridge_said, bridge_text, has_input, is_bridge_refused};
ghost use Rattle.bridge_command.specs.Words.{IsBridgeFormWithinBounds, OnAsked, asked_form, bridge_usage, has_bridge_settings};
ghost use Rattle.bridge_command.specs.Complaints.{OnAnswer, said_text};
ghost use Rattle.tool_text.specs.Ends.{SinkFails, IsWritten, OnJobEnd, Answers, StopsWithin, EndsForCause};

use crate::capture::capture_frames;
use crate::complaints::{FormEnd, tell_said};
use crate::frames::frame_flow;
use crate::json::json_records;
use crate::seed::tell_seed;
use crate::seeds::tell_seeds;
use crate::unwrap::unwrap_capture;
use crate::words::{BridgeForm, Picture, USAGE, form_of};
use bridge_pictures::{ladder_of_flow, ladder_of_transcript, windows_of_flow, windows_of_schedule};
use dccp_io::{Sink, Source, write_all};
use std::alloc::Global;
use tool_text::{JobEnd, LinesEnd, Status};

/// Does what the words after the program's name ask for (own). `capture` reads what `run` or `replay` wrote, and writes
/// a classic capture with a record for each frame that was sent. `unwrap` reads a capture, classic or pcapng, of any of
/// fifteen link types, and writes a classic one of raw IP, record for record. `seed` reads nothing, and writes the
/// schedule of a campaign's seed; `seeds` reads nothing either, and writes an object for each of many seeds. `frames`
/// reads a capture as `unwrap` does, and writes lines of `replay` for the packets of a flow that go to a side; and
/// `json` writes an object for each record. `ladder` draws what `run` or `replay` wrote, and with a flow the packets of
/// that flow in a capture. `windows` draws the windows of a schedule that it plays, and with a flow those of that flow
/// in a capture.
///
/// Words are judged first; after that the first refusal in the order of reading decides. With status 0 or 1 the output
/// is that of the whole input, with status 3, 4 or 5 a prefix of it. What was skipped of a capture, and why an input is
/// refused, is written to `errors`, and so is the usage line. The clauses on the output are about a source whose bytes,
/// and a sink whose text, contracts can see.
pub fn bridge<S: Source, K: Sink, E: Sink>(
    alloc: Global,
    words: &[String],
    input: &mut S,
    output: &mut K,
    errors: &mut E,
) -> Status
    // For words that are none of the forms, the usage line is written, as far as the sink for errors takes it. If no
    // memory was left to read settings, nothing is written. The output stays as it was.
    ensures words { result ≡ Status.Words → asked_form words.now ≡ None }
    ensures others { asked_form words.now ≡ None
        → (result ≡ Status.Words) ⊎ ((result ≡ Status.Memory) × (has_bridge_settings words.now ≡ true)) }
    ensures unread { asked_form words.now ≡ None → input.new ≡ input.old }
    ensures usage { result ≡ Status.Words
        → IsWritten bridge_usage (E.taken errors.old) (E.taken errors.new) (SinkFails E.faults E.empty_takes errors.old errors.new) }
    ensures silent { asked_form words.now ≡ None → output.new ≡ output.old }

    // For each form that reads its input: what it writes, how it ends, and how far it had read if it refuses the input.
    ensures answers { OnBridgeInput words.now (S.left input.old) (λ form bytes.
        OnJobEnd result (λ end. Answers (bridge_text form bytes) (is_bridge_refused form bytes) end (S.left input.new) (K.taken output.old) (K.taken output.new))) }
    ensures past { OnBridgeInput words.now (S.left input.old) (λ form bytes.
        OnJobEnd result (λ end. StopsWithin (bridge_reads_past form) (bridge_accepted form bytes) bytes end (S.left input.new))) }

    // With an answer, what was skipped of a capture, and why the input is refused, is written to the sink for errors,
    // as far as it takes that: a line for each kind, and one for the refusal, or nothing.
    ensures said { OnBridgeInput words.now (S.left input.old) (λ form bytes.
        OnJobEnd result (λ end. OnAnswer end (IsWritten (said_text (bridge_said form bytes)) (E.taken errors.old) (E.taken errors.new)
        (SinkFails E.faults E.empty_takes errors.old errors.new)))) }

    // For a form that reads nothing, the same holds as for an empty input. And how any form ends.
    ensures told { OnAsked words.now (λ form. has_input form ≡ false
        → OnJobEnd result (λ end. Answers (bridge_text form []) false end (Some []) (K.taken output.old) (K.taken output.new))) }
    ensures form_unread { (form : BridgeForm) → asked_form words.now ≡ Some form → has_input form ≡ false → input.new ≡ input.old }
    ensures cause { (form : BridgeForm) → asked_form words.now ≡ Some form
        → OnJobEnd result (λ end. EndsForCause end (Rose (S.faults input.old) (S.faults input.new)) (SinkFails K.faults K.empty_takes output.old output.new)) }
{
    match form_of(alloc, words) {
        Ok(Some(form)) => perform_and_tell(alloc, form, input, output, errors).status(),
        Ok(None) => refuse_words(errors),
        Err(_) => Status::Memory,
    }
}

// Does what a form asks for, and reports what was skipped, and why its input is refused, if it is.
fn perform_and_tell<S: Source, K: Sink, E: Sink>(
    alloc: Global,
    form: BridgeForm,
    input: &mut S,
    output: &mut K,
    errors: &mut E,
) -> JobEnd
    requires { IsBridgeFormWithinBounds form }
    ensures answers { OnBridgeRead form (S.left input.old) (λ bytes.
        Answers (bridge_text form bytes) (is_bridge_refused form bytes) result (S.left input.new) (K.taken output.old) (K.taken output.new)) }
    ensures past { OnBridgeRead form (S.left input.old) (λ bytes.
        StopsWithin (bridge_reads_past form) (bridge_accepted form bytes) bytes result (S.left input.new)) }
    ensures said { OnBridgeRead form (S.left input.old) (λ bytes.
        OnAnswer result (IsWritten (said_text (bridge_said form bytes)) (E.taken errors.old) (E.taken errors.new)
        (SinkFails E.faults E.empty_takes errors.old errors.new))) }
    ensures told { has_input form ≡ false → Answers (bridge_text form []) false result (Some []) (K.taken output.old) (K.taken output.new) }
    ensures unread { has_input form ≡ false → input.new ≡ input.old }
    ensures cause { EndsForCause result (Rose (S.faults input.old) (S.faults input.new)) (SinkFails K.faults K.empty_takes output.old output.new) }
{
    let ended = perform(alloc, form, input, output);
    tell_said(alloc, ended, errors)
}

// Does what a form asks for.
fn perform<S: Source, K: Sink>(
    alloc: Global,
    form: BridgeForm,
    input: &mut S,
    output: &mut K,
) -> FormEnd
    requires { IsBridgeFormWithinBounds form }
    ensures answers { OnBridgeRead form (S.left input.old) (λ bytes.
        Answers (bridge_text form bytes) (is_bridge_refused form bytes) result.end (S.left input.new) (K.taken output.old) (K.taken output.new)) }
    ensures past { OnBridgeRead form (S.left input.old) (λ bytes.
        StopsWithin (bridge_reads_past form) (bridge_accepted form bytes) bytes result.end (S.left input.new)) }
    ensures refused { OnBridgeRead form (S.left input.old) (λ bytes.
        OnAnswer result.end (result.said ≡ bridge_said form bytes)) }
    ensures told { has_input form ≡ false → Answers (bridge_text form []) false result.end (Some []) (K.taken output.old) (K.taken output.new) }
    ensures unread { has_input form ≡ false → input.new ≡ input.old }
    ensures cause { EndsForCause result.end (Rose (S.faults input.old) (S.faults input.new)) (SinkFails K.faults K.empty_takes output.old output.new) }
{
    match form {
        BridgeForm::Capture => FormEnd::of_lines(capture_frames(alloc, input, output)),
        BridgeForm::Picture(Picture::Ladder) => {
            FormEnd::of_lines(ladder_of_transcript(alloc, input, output))
        }
        BridgeForm::Picture(Picture::Windows) => {
            FormEnd::of_lines(windows_of_schedule(alloc, input, output))
        }
        BridgeForm::Seed(run) => {
            let end = tell_seed(alloc, run.seed, run.events, output);
            FormEnd::of_lines(LinesEnd { end, refusal: None })
        }
        BridgeForm::Seeds(range) => {
            let end = tell_seeds(alloc, range, output);
            FormEnd::of_lines(LinesEnd { end, refusal: None })
        }
        BridgeForm::Unwrap => FormEnd::of_records(unwrap_capture(alloc, input, output)),
        BridgeForm::Frames(asked) => {
            FormEnd::of_records(frame_flow(alloc, asked.flow, asked.side, input, output))
        }
        BridgeForm::Json(payload) => {
            FormEnd::of_records(json_records(alloc, payload, input, output))
        }
        BridgeForm::FlowPicture(Picture::Ladder, flow) => {
            FormEnd::of_records(ladder_of_flow(alloc, flow, input, output))
        }
        BridgeForm::FlowPicture(Picture::Windows, flow) => {
            FormEnd::of_records(windows_of_flow(alloc, flow, input, output))
        }
    }
}

fn refuse_words<E: Sink>(errors: &mut E) -> Status
    ensures words { result ≡ Status.Words }
    ensures usage { IsWritten bridge_usage (E.taken errors.old) (E.taken errors.new) (SinkFails E.faults E.empty_takes errors.old errors.new) }
{
    let _ = write_all(errors, USAGE);
    Status::Words
}
