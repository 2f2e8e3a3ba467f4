//! The tool as one call: a form of its words over a source and a sink.
ghost use Rattle.std.specs.Prelude.{◌≡◌, ◌⊎◌, Some, None, true, false};
ghost use Rattle.dccp_io.specs.Counts.{Rose};
ghost use Rattle.tool_jobs.specs.Transcript.{SafeThroughout};
ghost use Rattle.dccp_command.specs.CampaignText.{AnswersUnread, campaign_text};
ghost use Rattle.dccp_command.specs.Forms.{OnInput, PerformsForm, form_accepted, form_reads_past, form_text, is_form_refused, reads_input};
ghost use Rattle.tool_forms.specs.Words.{IsFormWithinBounds, OnRun, form_of, has_settings, usage};
ghost use Rattle.tool_text.specs.Ends.{SinkFails, IsWritten, IsAnswered, OnJobEnd, Answers, StopsWithin, EndsForCause};

use crate::campaigning::run_campaign;
use dccp_io::{Sink, Source, write_all};
use fault_campaign::Gate;
use packet_show::show_capture;
use std::alloc::Global;
use std::thread::Threads;
use tool_forms::{Campaign, Form, USAGE, form_of};
use tool_jobs::{listen_to_peers, play_nonces, replay_at_buffer, replay_frames, run_schedule};
use tool_text::{JobEnd, Status};

/// Does what the words after the program's name ask for (own). `run` plays a schedule: it reads `input`, and writes to
/// `output` a line for each event and for each frame that it sent, and last the state of both ends. `replay` hands the
/// frames of `input` to one end, and writes the same for it; if words ask for it, the end has a receive buffer, which
/// is read as lines say. `show` reads a capture, and writes a line for each DCCP packet in it, and last how many
/// records it has or why it ends early. `listen` hands what many peers send to one listener, and writes a line for each
/// answer and for each frame that goes to a peer, and last the flows. `ecn` plays events between an ECN-capable sender
/// and an ECN-capable receiver, and writes a line for each. Each form answers while it reads, one line or record at a
/// time. The answer goes out in blocks, and before the form reads more of the input. `campaign` reads nothing: it runs
/// seeds on as many threads as the words say, each of which calls `gate` before each seed that it runs, and writes the
/// counts over all of them, which are the same for every number of threads and every gate.
///
/// Words are judged first; after that the first refusal in the order of reading decides. With status 0 or 1 the output
/// is the text of the whole input, and each event of a schedule took place in a safe world and left a safe one. With
/// status 3, 4 or 5 it is a prefix of that text. The clauses on the output are about a source whose bytes are known,
/// and a sink that shows what it took.
pub fn dccp<R: Threads + Sync, G: Gate + Sync, S: Source, K: Sink>(
    rt: &R,
    alloc: Global,
    gate: &G,
    words: &[String],
    input: &mut S,
    output: &mut K,
) -> Status
    // The usage line answers words that are none of the forms, as far as the sink takes it. If no memory was left to
    // read settings, nothing is written.
    ensures words { result ≡ Status.Words → form_of words.now ≡ None }
    ensures others { form_of words.now ≡ None
        → (result ≡ Status.Words) ⊎ ((result ≡ Status.Memory) × (has_settings words.now ≡ true)) }
    ensures unread { form_of words.now ≡ None → input.new ≡ input.old }
    ensures usage { result ≡ Status.Words
        → IsWritten usage (K.taken output.old) (K.taken output.new) (SinkFails K.faults K.empty_takes output.old output.new) }
    ensures silent { form_of words.now ≡ None → result ≡ Status.Memory → output.new ≡ output.old }

    // What each form that reads its input writes, how it ends, and how far it has read when it refuses the input.
    ensures answers { OnInput words.now (S.left input.old) (λ form bytes.
        OnJobEnd result (λ end. Answers (form_text form bytes) (is_form_refused form bytes) end (S.left input.new) (K.taken output.old) (K.taken output.new))) }
    ensures past { OnInput words.now (S.left input.old) (λ form bytes.
        OnJobEnd result (λ end. StopsWithin (form_reads_past form) (form_accepted form bytes) bytes end (S.left input.new))) }

    // What holds of both ends of `run`, what a campaign writes, and why any form ended.
    ensures safe { OnRun words.now (S.left input.old) (λ bytes. OnJobEnd result (λ end. IsAnswered end → SafeThroughout bytes)) }
    ensures form_unread { (form : Form) → form_of words.now ≡ Some form → reads_input form ≡ false → input.new ≡ input.old }
    ensures totals { (campaign : Campaign) → form_of words.now ≡ Some (Form.Campaign campaign)
        → OnJobEnd result (λ end. AnswersUnread (campaign_text campaign) end (K.taken output.old) (K.taken output.new) (SinkFails K.faults K.empty_takes output.old output.new)) }
    ensures cause { (form : Form) → form_of words.now ≡ Some form
        → OnJobEnd result (λ end. EndsForCause end (Rose (S.faults input.old) (S.faults input.new)) (SinkFails K.faults K.empty_takes output.old output.new)) }
{
    match form_of(alloc, words) {
        Ok(Some(form)) => answer_form(rt, alloc, gate, form, input, output),
        Ok(None) => refuse_words(output),
        Err(_) => Status::Memory,
    }
}

// Answers words that are a form: the program ends as the form's job does.
#[tactic(auto, using(crate::proofs::FormEnds::ends_as_its_job))]
fn answer_form<R: Threads + Sync, G: Gate + Sync, S: Source, K: Sink>(
    rt: &R,
    alloc: Global,
    gate: &G,
    form: Form,
    input: &mut S,
    output: &mut K,
) -> Status
    requires { IsFormWithinBounds form }
    ensures { OnJobEnd result (λ end. PerformsForm form end (input.new ≡ input.old) (S.left input.old) (S.left input.new) (K.taken output.old) (K.taken output.new)
        (Rose (S.faults input.old) (S.faults input.new)) (SinkFails K.faults K.empty_takes output.old output.new)) }
{
    perform(rt, alloc, gate, form, input, output).status()
}

// Does what a form asks for.
fn perform<R: Threads + Sync, G: Gate + Sync, S: Source, K: Sink>(
    rt: &R,
    alloc: Global,
    gate: &G,
    form: Form,
    input: &mut S,
    output: &mut K,
) -> JobEnd
    requires { IsFormWithinBounds form }
    ensures { PerformsForm form result (input.new ≡ input.old) (S.left input.old) (S.left input.new) (K.taken output.old) (K.taken output.new)
        (Rose (S.faults input.old) (S.faults input.new)) (SinkFails K.faults K.empty_takes output.old output.new) }
{
    match form {
        Form::Run => run_schedule(alloc, input, output),
        Form::Replay { side, plain } => replay_frames(alloc, side, plain, input, output),
        Form::Buffered {
            side,
            plain,
            capacity,
        } => replay_at_buffer(alloc, side, plain, capacity, input, output),
        Form::Campaign(campaign) => run_campaign(rt, alloc, gate, campaign, output),
        Form::Show => show_capture(alloc, input, output),
        Form::Listen { most } => listen_to_peers(alloc, most, input, output),
        Form::Ecn => play_nonces(alloc, input, output),
    }
}

fn refuse_words<K: Sink>(output: &mut K) -> Status
    ensures words { result ≡ Status.Words }
    ensures usage { IsWritten usage (K.taken output.old) (K.taken output.new) (SinkFails K.faults K.empty_takes output.old output.new) }
{
    let _ = write_all(output, USAGE);
    Status::Words
}
