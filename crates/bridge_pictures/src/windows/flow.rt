//! `windows --flow`: a job over the records of a capture.
ghost use Rattle.std.specs.Prelude.{◌≡◌, ◌≤◌, ◌++◌, ℕ, List, length, IfOk, OnOk, Some};
ghost use Rattle.capture_reader.specs.Records.{entry_of};
ghost use Rattle.dccp_io.specs.Counts.{Rose};
ghost use Rattle.dccp_options.specs.Grammar.{options_of};
ghost use Rattle.dccp_options.specs.Left.{item_of};
ghost use Rattle.packet_show.specs.Lines.{parts_by};
ghost use Rattle.bridge_records.specs.Recording.{capture_refusal, capture_skips};
ghost use Rattle.tool_text.specs.Ends.{Answers, IsAnswered, EndsForCause, SinkFails, StopsWithin};
ghost use Rattle.bridge_pictures.specs.FlowWindows as spec;
ghost use Rattle.bridge_pictures.specs.FlowWindows.{flow_windows_pieces, flow_windows_text, is_flow_windows_faulty};

use crate::flow_pictures::{FlowJob, FlowPicture};
use crate::stamps::{put_record_words, put_stamp};
use crate::walk::{FlowStep, is_later};
use crate::windows::graph::Graph;
use crate::windows::senders::{counts_seen, see_report, see_sent};
use bridge_records::{RecordsEnd, Skips, run_records};
use capture_reader::Record;
use ccid_two::Ccid2;
use dccp_io::{Sink, Source};
use dccp_options::{Opt, OptFault, kinds, options};
use dccp_packets::Packet;
use packet_show::put_option;
use schedule_text::side_name;
use seq_circle::NoMemory;
use std::alloc::Global;
use std::marker::Model;
use tool_text::{JobEnd, put};
use world_events::Side;

// What is noted below the charts.
const HEADING: &[u8] = b"record, its time, end, and what it confirms of features";

/// The windows of a flow while they are drawn.
#[derive(Drop)]
pub(crate) struct FlowWindows {
    alloc: Global,
    client: Ccid2,
    server: Ccid2,
    graph: Graph,
}

impl Model for FlowWindows {
    ghost use Rattle.bridge_pictures.specs.FlowWindows.{FlowWindowsParts};

    ghost Value = { FlowWindowsParts };

    ghost view = { λ f. record { client = f.client; server = f.server; graph = f.graph } };
}

// Puts an option that confirms a feature's value, and nothing for any other option.
fn put_confirm(text: &mut Vec<u8>, item: &Result<Opt<'_>, OptFault>) -> Result<(), NoMemory>
    ensures { OnOk result (text.new.items ≡ text.old.items ++ spec.confirm_words (item_of item.now)) }
{
    let Ok(option) = item else {
        return Ok(());
    };
    if option.kind != kinds::CONFIRM_L && option.kind != kinds::CONFIRM_R {
        return Ok(());
    }
    put(text, b" ")?;
    put_option(text, option.kind, option.body)
}

// Puts the options of an area that confirm features.
fn put_confirms(text: &mut Vec<u8>, area: &[u8], on_data: bool) -> Result<(), NoMemory>
    requires { length area.now ≤ 1008 }
    ensures { OnOk result (text.new.items ≡ text.old.items ++ spec.all_confirms (options_of area.now on_data)) }
{
    for item in options(area, on_data) {
        put_confirm(text, &item)?;
    }
    Ok(())
}

// Puts the record in which a side confirmed features, and what it confirmed.
#[tactic(auto, unfolding(crate::specs::FlowWindows::confirms_note))]
fn put_confirms_note(
    text: &mut Vec<u8>,
    from: Side,
    item: &Record<'_>,
    confirms: &[u8],
) -> Result<(), NoMemory>
    ensures { OnOk result (text.new.items ≡ text.old.items ++ spec.confirms_note from (entry_of item.now) confirms.now) }
{
    put_stamp(text, item)?;
    put(text, b" ")?;
    put(text, side_name(from))?;
    put(text, confirms)
}

impl FlowWindows {
    // Before the first packet.
    fn new(alloc: Global) -> Result<FlowWindows, NoMemory>
        ensures { IfOk result (λ f. f ≡ spec.first_flow_windows) }
    {
        let client = Ccid2::new(alloc)?;
        let server = Ccid2::new(alloc)?;
        Ok(FlowWindows {
            alloc,
            client,
            server,
            graph: Graph::new(alloc),
        })
    }

    // Notes at both senders a packet that this side sent.
    #[tactic(auto, unfolding(crate::specs::FlowWindows::senders_told))]
    fn tell_senders(&mut self, from: Side, packet: &Packet<'_>)
        requires { length packet.now.options.now ≤ 1008 }
        ensures { self.new ≡ spec.senders_told self.old from (parts_by packet.now) }
    {
        match from {
            Side::Client => {
                see_sent(&mut self.client, &packet.header);
                see_report(&mut self.server, packet);
            }
            Side::Server => {
                see_sent(&mut self.server, &packet.header);
                see_report(&mut self.client, packet);
            }
        }
    }

    // Draws the column of a packet.
    #[tactic(auto, unfolding(crate::specs::FlowWindows::packet_column))]
    fn draw_column(&mut self, item: &Record<'_>, packet: &Packet<'_>) -> Result<(), NoMemory>
        requires { length packet.now.options.now ≤ 1008 }
        ensures { OnOk result (self.new ≡ spec.packet_column self.old (entry_of item.now) (parts_by packet.now)) }
    {
        let mut words = Vec::new(self.alloc);
        put_record_words(&mut words, item, packet)?;
        let client = counts_seen(&self.client);
        let server = counts_seen(&self.server);
        self.graph.draw(client, server, &words)
    }

    // Notes below the charts what a packet confirms.
    #[tactic(auto, unfolding(crate::specs::FlowWindows::confirms_told))]
    fn tell_confirms(
        &mut self,
        from: Side,
        item: &Record<'_>,
        packet: &Packet<'_>,
    ) -> Result<(), NoMemory>
        requires { length packet.now.options.now ≤ 1008 }
        ensures { OnOk result (self.new ≡ spec.confirms_told self.old from (entry_of item.now) (parts_by packet.now)) }
    {
        let mut confirms = Vec::new(self.alloc);
        let on_data = packet.header.kind.packet_type().is_data();
        put_confirms(&mut confirms, packet.options, on_data)?;
        if confirms.is_empty() {
            return Ok(());
        }
        let mut words = Vec::new(self.alloc);
        put_confirms_note(&mut words, from, item, &confirms)?;
        self.graph.note(&words)
    }
}

impl FlowPicture for FlowWindows {
    ghost use Rattle.bridge_pictures.specs.FlowWindows.{windows_kind};

    ghost kind = { windows_kind };

    // The senders note only a packet with a later number.
    #[tactic(auto, unfolding(crate::specs::FlowWindows::step_charted))]
    fn draw(
        &mut self,
        _alloc: Global,
        step: FlowStep,
        item: &Record<'_>,
        packet: &Packet<'_>,
    ) -> Result<(), NoMemory> {
        if is_later(step.ahead) {
            self.tell_senders(step.from, packet);
        }
        self.draw_column(item, packet)?;
        self.tell_confirms(step.from, item, packet)
    }

    fn put_text(&self, text: &mut Vec<u8>) -> Result<(), NoMemory> {
        self.graph.put_picture(text, HEADING, b"", b"")
    }
}

/// Draws the windows of a flow of a capture (own). Each packet of the flow of this number has a column in two charts,
/// one for each end; flows are numbered as `show` numbers them after `unwrap`. A window is not on the wire. So each
/// chart shows what CCID 2 counts if it is given the packets with later numbers: the end's packets of data, and the Ack
/// Vectors that go to it, with an Ack Ratio of 2 (RFC 4341, section 5). It is given no timers. Below both charts are
/// the options that confirm features. The ends are those of [`ladder_of_flow`](crate::ladder_of_flow).
///
/// The capture is one that `unwrap` takes. Input means that it has a fault; what came before is drawn. With status 0 or
/// 1 the output is that of the whole input, with another a prefix of it. Read means that the source failed, Write that
/// the sink did, and Memory that no memory was left.
pub fn windows_of_flow<S: Source, K: Sink>(
    alloc: Global,
    flow: u64,
    input: &mut S,
    output: &mut K,
) -> RecordsEnd
    ensures drawn { (bytes : List ℕ) → S.left input.old ≡ Some bytes
        → Answers (flow_windows_text flow bytes) (is_flow_windows_faulty flow bytes) result.end (S.left input.new) (K.taken output.old) (K.taken output.new) }
    ensures past { (bytes : List ℕ) → S.left input.old ≡ Some bytes
        → StopsWithin 524288 (flow_windows_pieces flow bytes).accepted bytes result.end (S.left input.new) }
    ensures refused { (bytes : List ℕ) → S.left input.old ≡ Some bytes → IsAnswered result.end → result.refusal ≡ capture_refusal (flow_windows_pieces flow bytes) }
    ensures skipped { (bytes : List ℕ) → S.left input.old ≡ Some bytes → IsAnswered result.end → result.skips ≡ capture_skips (flow_windows_pieces flow bytes) }
    ensures cause { EndsForCause result.end (Rose (S.faults input.old) (S.faults input.new)) (SinkFails K.faults K.empty_takes output.old output.new) }
{
    let Ok(windows) = FlowWindows::new(alloc) else {
        return RecordsEnd {
            end: JobEnd::Memory,
            refusal: None,
            skips: Skips::none(),
        };
    };
    let job = FlowJob::new(alloc, flow, windows);
    run_records(alloc, job, input, output)
}
