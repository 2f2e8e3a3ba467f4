//! The packets that go out between the ends of a configuration, under any numbers: a frame is written at its place in the
//! Outbox, with its checksum.
ghost use Rattle.std.specs.Prelude.{◌≡◌, ◌≤◌, ◌+◌, ℕ, Bool, List, [], Some, true, false, length};
ghost use Rattle.dccp_endpoint.specs.Drafts.{alone, framed, own_header, sent_as, sent_of};
ghost use Rattle.dccp_packets.specs.Beginning.{Begins};
ghost use Rattle.dccp_packets.specs.declared.header.Kind.{Kind};
ghost use Rattle.dccp_endpoint.specs.Receiving.{number_without_connection};
ghost use Rattle.dccp_endpoint.specs.Steps.{detail_of, reset_of};
ghost use Rattle.dccp_packets.specs.Forms.{may_be_short};
ghost use Rattle.dccp_packets.specs.Grammar.{has_forms, packet_type};
ghost use Rattle.dccp_packets.specs.Kinds.{ack_of};
ghost use Rattle.dccp_packets.specs.Widths.{kind_in_widths};
ghost use Rattle.dccp_states.specs.declared.outcome.Outcome.TheVariants.{SentReset};

use crate::config::number as seq48;
use crate::sealing::seal_frame;
use crate::{Config, Fault, Outcome};
use dccp_packets::{Frame, Header, Kind, Number, Numbers, Outbox, begin, finish};
use seq_circle::Seq48;

// The header of an end's own packets, with short numbers or with long ones.
#[inline(always)]
fn own_header(config: &Config, number: Seq48, short: bool, kind: &Kind) -> Header
    ensures { result ≡ own_header config.now short number kind.now }
{
    Header {
        from: config.own_port,
        to: config.peer_port,
        ccval: 0,
        cscov: 0,
        checksum: 0,
        number: Number::in_form(number, short),
        kind: kind.in_form(short),
    }
}

/// The numbers of a packet of this type.
#[inline(always)]
pub(crate) fn numbers(number: Seq48, kind: &Kind) -> Numbers
    ensures { result ≡ record { number = number; ack = ack_of (kind_in_widths kind.now) } }
{
    Numbers {
        number,
        ack: kind.ack(),
    }
}

/// Begins a packet with its header. The options are then appended, and `end_frame` ends it.
#[tactic(auto, using(crate::proofs::Short::is_formed))]
#[inline(always)]
pub(crate) fn begin_frame(
    config: &Config,
    number: Seq48,
    short: bool,
    kind: &Kind,
    frame: &mut Frame,
)
    requires form { has_forms true kind.now ≡ true }
    requires may { short ≡ true → may_be_short (packet_type kind.now) ≡ true }
    ensures begun { Begins (own_header config.now short number kind.now) [] frame.new }
    ensures least { 12 ≤ length frame.new }
    ensures most { length frame.new ≤ 28 }
{
    begin(&own_header(config, number, short, kind), frame);
}

/// Ends a packet that has its header and its options: writes its data and its checksum.
pub(crate) fn end_frame(config: &Config, payload: &[u8], frame: &mut Frame)
    requires begun { 12 ≤ length frame.old }
    requires fits { length frame.old ≤ 1020 }
    requires short { length payload.now ≤ 1024 }
    ensures { (short : Bool) (number : ℕ) (kind : Kind) (area : List ℕ) → Begins (own_header config.now short number kind) area frame.old
        → frame.new ≡ framed config.now short number kind area payload.now }
{
    finish(payload, frame);
    seal_frame(&config.pseudo_out, frame);
}

/// Writes a packet without options directly into the Outbox, since a frame is large.
pub(crate) fn put_frame(
    config: &Config,
    number: Seq48,
    short: bool,
    kind: Kind,
    payload: &[u8],
    out: &mut Outbox,
)
    requires form { has_forms true kind ≡ true }
    requires may { short ≡ true → may_be_short (packet_type kind) ≡ true }
    requires short { length payload.now ≤ 1024 }
    ensures { out.new ≡ Some (sent_as number kind (framed config.now short number kind [] payload.now)) }
{
    let frame = out.begin(numbers(number, &kind));
    begin_frame(config, number, short, &kind, frame);
    end_frame(config, payload, frame);
}

/// Leaves a packet without options and data in the Outbox; its type has only long numbers.
pub(crate) fn put_alone(config: &Config, number: Seq48, kind: Kind, out: &mut Outbox)
    requires { may_be_short (packet_type kind) ≡ false }
    ensures { out.new ≡ Some (sent_of config.now false number (alone kind)) }
{
    put_frame(config, number, false, kind, &[], out);
}

/// The number of a Reset of no connection: the next after what the packet acknowledges, or 0.
pub(crate) fn number_without_connection(ack: Option<Seq48>) -> Seq48
    ensures { result ≡ number_without_connection ack }
{
    match ack {
        Some(ack) => ack.next(),
        None => seq48(0),
    }
}

/// Leaves a Reset in the Outbox that names a fault, under this number, with this acknowledgement number, and between
/// the ends of the configuration; answers that it did (RFC 4340, section 5.6). It is for an owner that answers without
/// an end; an end with a connection sends its own Resets.
pub fn put_reset(
    config: &Config,
    number: Seq48,
    ack: Seq48,
    fault: Fault,
    out: &mut Outbox,
) -> Outcome
    ensures sent { out.new ≡ Some (sent_of config.now false number (reset_of ack fault)) }
    ensures answer { result ≡ SentReset fault.code (detail_of fault) }
{
    let code = fault.code;
    let detail = [fault.first, fault.second, fault.third];
    put_alone(config, number, Kind::Reset { ack, code, detail }, out);
    Outcome::SentReset { code, detail }
}
