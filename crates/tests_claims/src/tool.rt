//! What a caller can rely on for the tool's call, and for a listener's input.
ghost use Rattle.std.specs.Prelude.{◌≡◌, ◌≢◌, ◌⊎◌, ◌↔◌, ◌++◌, ◌-◌, ◌^◌, ◌<◌, ◌≤◌, ℕ, List, [], Some, None, true, false, drop, flat_map, map, take};
ghost use Rattle.ccid_two.specs.Kinds.{kinds_control};
ghost use Rattle.dccp_command.specs.CampaignText.{campaign_text};
ghost use Rattle.dccp_command.specs.Forms.{form_accepted, form_text, is_form_refused, reads_input};
ghost use Rattle.dccp_io.specs.Lines.{lines_of};
ghost use Rattle.dccp_listener.specs.Calls.{IsBusy};
ghost use Rattle.dccp_listener.specs.Chain.{Deed};
ghost use Rattle.dccp_listener.specs.Listens.{AreInOrder, listens};
ghost use Rattle.dccp_listener.specs.Peers.{ListenerState, end_of_peer};
ghost use Rattle.dccp_listener.specs.Runs.{IsChain, WasBusy, peer_turns};
ghost use Rattle.dccp_listener.specs.declared.peer.Peer.{Peer};
ghost use Rattle.tool_forms.specs.Words.{form_of, has_settings, usage};
ghost use Rattle.tool_forms.specs.declared.words.Form.{Form};
ghost use Rattle.tool_forms.specs.declared.words.Form.TheVariants as form;
ghost use Rattle.tool_jobs.specs.Listen.{first_listening, listen_refused, listen_text, listened, turns_of_input};
ghost use Rattle.tool_jobs.specs.PeerLines.{exchange_said, said_by_lines};
ghost use Rattle.tool_jobs.specs.Scenes.{scene_events};
ghost use Rattle.tool_jobs.specs.Telling.{exchange_text, flow_lines};
ghost use Rattle.tool_jobs.specs.Transcript.{performed, transcript, world_at_first};
ghost use Rattle.two_ends.specs.Controlled.{plays};
ghost use Rattle.two_ends.specs.Safe.{Safe};

use dccp_command::{Campaign, Gate, Status, dccp};
use dccp_io::{Sink, Source};
use std::alloc::Global;
use std::thread::Threads;
use tool_jobs::{each_peer_is_answered_by_its_chain, every_schedule_is_a_run};

/// What a call of `dccp` has done when it ends. With status 0 or 1, any number of the first accepted events of `run`
/// leads to a safe world (`done`, `refused`), and the sink took exactly the text of the input: for `run` the transcript
/// (`transcript`), for each other form that reads its own text (`whole`), for a campaign its sums (`sums`). Status 1
/// comes only for an input that is refused, and 0 only for one that is not, which was then read to its end (`accepted`,
/// `faulty`, `emptied`). What is refused was read at most 16,384 bytes too far, a capture at most 524,288 (`past`,
/// `past_records`). With 3, 4 or 5 the sink took a prefix of the text (`front`), or of the sums (`sums_front`): with 3 the
/// source failed, with 4 the sink (`read`, `written`). A campaign reads nothing (`unread`).
///
/// Status 2 comes for words that are no form (`unnamed`), and for these only 2 or 5 comes (`named`); 5 only if the
/// words may have settings, and then nothing is written (`settings`, `silent`). No input is read (`idle`). With 2 the
/// sink took a prefix of the usage line, and all of it if the sink did not fail (`line`, `usage`).
pub fn played<R: Threads + Sync, G: Gate + Sync, S: Source, K: Sink>(
    rt: &R,
    alloc: Global,
    gate: &G,
    words: &[String],
    input: &mut S,
    output: &mut K,
) -> Status
    ensures done { (bytes : List ℕ) (n : ℕ) → form_of words.now ≡ Some form.Run → S.left input.old ≡ Some bytes → result ≡ Status.Done
        → Safe kinds_control (plays kinds_control (world_at_first (performed bytes)) (take n (scene_events (performed bytes).deeds))) }
    ensures refused { (bytes : List ℕ) (n : ℕ) → form_of words.now ≡ Some form.Run → S.left input.old ≡ Some bytes → result ≡ Status.Input
        → Safe kinds_control (plays kinds_control (world_at_first (performed bytes)) (take n (scene_events (performed bytes).deeds))) }
    ensures transcript { (bytes before : List ℕ) → form_of words.now ≡ Some form.Run → S.left input.old ≡ Some bytes
        → K.taken output.old ≡ Some before → (result ≡ Status.Done) ⊎ (result ≡ Status.Input)
        → K.taken output.new ≡ Some (before ++ transcript bytes) }
    ensures whole { (which : Form) (bytes before : List ℕ) → form_of words.now ≡ Some which → reads_input which ≡ true
        → S.left input.old ≡ Some bytes → K.taken output.old ≡ Some before → (result ≡ Status.Done) ⊎ (result ≡ Status.Input)
        → K.taken output.new ≡ Some (before ++ form_text which bytes) }
    ensures accepted { (which : Form) (bytes : List ℕ) → form_of words.now ≡ Some which → reads_input which ≡ true
        → S.left input.old ≡ Some bytes → result ≡ Status.Done → is_form_refused which bytes ≡ false }
    ensures faulty { (which : Form) (bytes : List ℕ) → form_of words.now ≡ Some which → reads_input which ≡ true
        → S.left input.old ≡ Some bytes → result ≡ Status.Input → is_form_refused which bytes ≡ true }
    ensures front { (which : Form) (bytes before : List ℕ) → form_of words.now ≡ Some which → reads_input which ≡ true
        → S.left input.old ≡ Some bytes → K.taken output.old ≡ Some before
        → (count : ℕ) × (K.taken output.new ≡ Some (before ++ take count (form_text which bytes))) }
    ensures emptied { (which : Form) (bytes : List ℕ) → form_of words.now ≡ Some which → reads_input which ≡ true
        → S.left input.old ≡ Some bytes → result ≡ Status.Done → S.left input.new ≡ Some [] }
    ensures read { (which : Form) → form_of words.now ≡ Some which → result ≡ Status.Read → S.faults input.old ≡ S.faults input.new
        → S.faults input.new < 2 ^ 64 - 1 → ⊥ }
    ensures written { (which : Form) → form_of words.now ≡ Some which → result ≡ Status.Write → K.faults output.old ≡ K.faults output.new
        → K.empty_takes output.old ≡ K.empty_takes output.new → K.faults output.new < 2 ^ 64 - 1 → K.empty_takes output.new < 2 ^ 64 - 1 → ⊥ }
    ensures unnamed { (which : Form) → form_of words.now ≡ Some which → result ≡ Status.Words → ⊥ }
    ensures named { form_of words.now ≡ None → (result ≡ Status.Words) ⊎ (result ≡ Status.Memory) }
    ensures sums { (campaign : Campaign) (before : List ℕ) → form_of words.now ≡ Some (form.Campaign campaign)
        → K.taken output.old ≡ Some before → result ≡ Status.Done → K.taken output.new ≡ Some (before ++ campaign_text campaign) }
    ensures sums_front { (campaign : Campaign) (before : List ℕ) → form_of words.now ≡ Some (form.Campaign campaign) → K.taken output.old ≡ Some before
        → (count : ℕ) × (K.taken output.new ≡ Some (before ++ take count (campaign_text campaign))) }
    ensures past { (which : Form) (bytes : List ℕ) → form_of words.now ≡ Some which → reads_input which ≡ true → which ≢ form.Show
        → S.left input.old ≡ Some bytes → result ≡ Status.Input
        → (count : ℕ) × ((count ≤ 16384) × (S.left input.new ≡ Some (drop count (drop (form_accepted which bytes) bytes)))) }
    ensures past_records { (bytes : List ℕ) → form_of words.now ≡ Some form.Show → S.left input.old ≡ Some bytes → result ≡ Status.Input
        → (count : ℕ) × ((count ≤ 524288) × (S.left input.new ≡ Some (drop count (drop (form_accepted form.Show bytes) bytes)))) }
    ensures unread { (campaign : Campaign) → form_of words.now ≡ Some (form.Campaign campaign) → input.new ≡ input.old }
    ensures idle { form_of words.now ≡ None → input.new ≡ input.old }
    ensures settings { form_of words.now ≡ None → result ≡ Status.Memory → has_settings words.now ≡ true }
    ensures silent { form_of words.now ≡ None → result ≡ Status.Memory → output.new ≡ output.old }
    ensures line { (before : List ℕ) → result ≡ Status.Words → K.taken output.old ≡ Some before
        → (count : ℕ) × (K.taken output.new ≡ Some (before ++ take count usage)) }
    ensures usage { (before : List ℕ) → result ≡ Status.Words → K.taken output.old ≡ Some before → K.faults output.old ≡ K.faults output.new
        → K.empty_takes output.old ≡ K.empty_takes output.new → K.faults output.new < 2 ^ 64 - 1 → K.empty_takes output.new < 2 ^ 64 - 1
        → K.taken output.new ≡ Some (before ++ usage) }
{
    every_schedule_is_a_run();
    dccp(rt, alloc, gate, words, input, output)
}

/// For every input of `listen`: each peer gets the answers and frames that a server only for it would have given for
/// only its lines, without those that a full table answered (`alone`). If no line is refused, the text is that of all
/// lines that say something, in their order and with their numbers, and then of the flows, in the order of their peers
/// (`text`, `lines`, `ordered`). A peer finds the listener busy exactly if it has no flow and would get one, and there
/// are as many flows as allowed (`busy`).
pub fn a_listener_answers_each_peer_by_its_own_lines()
    ensures alone { (most : ℕ) (input : List ℕ) (peer : Peer) → IsChain (first_listening most).config peer None
        (end_of_peer (listened most input).last.listener.flows peer) (peer_turns peer (turns_of_input most input)) }
    ensures text { (most : ℕ) (input : List ℕ) → listen_refused most input ≡ false
        → listen_text most input ≡ flat_map exchange_text (listened most input).deeds ++ flow_lines (listened most input).last.listener.flows }
    ensures lines { (most : ℕ) (input : List ℕ) → listen_refused most input ≡ false
        → map exchange_said (listened most input).deeds ≡ said_by_lines 1 0 (lines_of input) }
    ensures ordered { (most : ℕ) (input : List ℕ) → AreInOrder (listened most input).last.listener.flows }
    ensures busy { (l : ListenerState) (peer : Peer) (deed : Deed) → ((listens l peer deed).told ≡ WasBusy) ↔ IsBusy l peer deed }
{
    each_peer_is_answered_by_its_chain();
}
