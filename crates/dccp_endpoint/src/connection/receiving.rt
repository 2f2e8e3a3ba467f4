//! What an end does with a packet that arrives: the sixteen steps of RFC 4340, section 8.5. `take_packet`, `take`,
//! `take_steps`, `take_options`, `negotiate` and `process` list them, and each is a function, below or in `replying`.
use super::classes::{carries_data, is_acking, is_live, is_open};
use super::handing::{hand_over, hand_over_silent};
use super::{Connection, fit};
use crate::faults::heeds_negotiation;
use crate::heeding::{Reading, heed};
use crate::incoming::IncomingPacket;
use crate::speaking::DueConfirm;
use crate::strangers::{is_of_connection, without_detail};
use crate::{Exit, Fault, Outcome, Why};
use congestion_trait::Congestion;
use dccp_packets::{Header, Number, Outbox, Packet, PacketType, ResetCode, decode};
use dccp_states::{Entrance, Phase, after, gate, unexpected};
use dccp_sum::check;
use feature_lists::{Feature, Place};
use feature_machine::Negotiation;
use run_list::Marked;
use seq_circle::{Seq48, extend};
use validity_windows::Verdict;

impl Connection {
    ghost use Rattle.std.specs.Prelude.{◌≡◌, ◌≤◌, [], None, Ok, Err, true, length, MatchResult};
    ghost use Rattle.dccp_states.specs.Entrance.{gate};
    ghost use Rattle.dccp_states.specs.Phases.{after};
    ghost use Rattle.dccp_states.specs.declared.phase.Phase.TheVariants as phase;
    ghost use Rattle.validity_windows.specs.Verdict.{verdict};
    ghost use Rattle.dccp_endpoint.specs.Controlled.{with_control};
    ghost use Rattle.dccp_endpoint.specs.End.{IsPhaseOf, IsProper, with_rows};
    ghost use Rattle.dccp_endpoint.specs.Heeding.{AreBlank, read_beside};
    ghost use Rattle.dccp_endpoint.specs.Speaking.{HaveRoom};
    ghost use Rattle.dccp_endpoint.specs.Incoming.{is_newest, parts_of_packet};
    ghost use Rattle.dccp_packets.specs.Grammar.{decoded};
    ghost use Rattle.dccp_endpoint.specs.Receiving.{receives, takes, checks_header, read_number, takes_short, course, Goes, the_steps, through, finds_connection, is_own_service, accepts_request, started};
    ghost use Rattle.dccp_endpoint.specs.Receiving.{acknowledges_in_window, answers, takes_answer, raises, checks_numbers, ends_by_reset, is_unexpected, is_other_service, checks_type, heeded, reads_options, moved_to, processes};
    ghost use Rattle.dccp_endpoint.specs.Reporting.{counts_data, delivered_if, delivers, looked_up, looks_up, marks};
    ghost use Rattle.run_list.specs.MarkedSet.{answer_to};

    /// Reading a field gives the prover the type's invariant.
    pub(crate) fn shows_proper(&self)
        ensures { IsProper self.now }
    {
        let _phase = self.phase;
    }

    /// Step 1, and the other steps for a packet that it lets pass, with what is due to the congestion control.
    #[tactic(auto, unfolding(crate::specs::Receiving::receives))]
    pub(crate) fn take_bytes<C: Congestion>(
        &mut self,
        bytes: &[u8],
        out: &mut Outbox,
        congestion: &mut C,
    ) -> Outcome
        requires empty { out.old ≡ None }
        requires short { length bytes.now ≤ 2044 }
        ensures { record { after = record { state = self.new; congestion = congestion.new }; frame = out.new; answer = result } ≡ with_control C.control congestion.old (receives self.old bytes.now) }
    {
        match decode(bytes) {
            Ok(packet) => self.take_packet(&packet, bytes, out, congestion),
            Err(fault) => Outcome::Dropped(Why::Malformed(fault)),
        }
    }

    /// The same for bytes that were decoded: the checks of header and checksum, and the other steps for a packet that
    /// they let pass.
    #[tactic(auto, unfolding(crate::specs::Receiving::receives))]
    pub(crate) fn take_packet<C: Congestion>(
        &mut self,
        packet: &Packet<'_>,
        bytes: &[u8],
        out: &mut Outbox,
        congestion: &mut C,
    ) -> Outcome
        requires empty { out.old ≡ None }
        requires short { length bytes.now ≤ 2044 }
        requires read { decoded bytes.now ≡ Ok (parts_of_packet packet.now) }
        requires options { length packet.now.options.now ≤ 1008 }
        ensures { record { after = record { state = self.new; congestion = congestion.new }; frame = out.new; answer = result } ≡ with_control C.control congestion.old (receives self.old bytes.now) }
    {
        match self.check_header(bytes, &packet.header) {
            Ok(number) => {
                let newest = self.is_newest(number);
                let ack = packet.header.kind.ack_near(self.marks.gss);
                let packet = IncomingPacket::of(packet, number, ack, bytes.len(), newest);
                self.take(&packet, out, congestion)
            }
            Err(why) => Outcome::Dropped(why),
        }
    }

    // Steps 2 to 16.
    fn take<C: Congestion>(
        &mut self,
        packet: &IncomingPacket<'_>,
        out: &mut Outbox,
        congestion: &mut C,
    ) -> Outcome
        requires { out.old ≡ None }
        ensures { record { after = record { state = self.new; congestion = congestion.new }; frame = out.new; answer = result } ≡ with_control C.control congestion.old (takes self.old packet.now) }
    {
        match self.take_steps(packet) {
            Ok(()) => self.take_options(packet, out, congestion), // 8, and 10 to 16
            Err(exit) => self.leave(packet, exit, out),
        }
    }

    // Step 8. Most packets have no option that says anything to the rows. Then the rows stay, and so do the windows,
    // whose widths are values of rows; and no Confirm is due.
    fn take_options<C: Congestion>(
        &mut self,
        packet: &IncomingPacket<'_>,
        out: &mut Outbox,
        congestion: &mut C,
    ) -> Outcome
        requires { out.old ≡ None }
        ensures { record { after = record { state = self.new; congestion = congestion.new }; frame = out.new; answer = result }
            ≡ with_control C.control congestion.old (heeded self.old packet.now (reads_options self.old packet.now)) }
    {
        let count = heeds_negotiation(packet.newest, self.phase, packet.kind);
        if !hand_over_silent(packet, count, self.rows(), congestion) {
            return self.negotiate(packet, out, congestion);
        }
        self.process(packet, &[], out)
    }

    // Step 8, whole: the first fault of the options ends the connection; without one the rows are stored, once the
    // congestion control has what is due to it. Steps 10 to 16 follow, with the Confirms that are due. It is a separate
    // function, since its copy of the rows is large, and few packets come here.
    #[inline(never)]
    fn negotiate<C: Congestion>(
        &mut self,
        packet: &IncomingPacket<'_>,
        out: &mut Outbox,
        congestion: &mut C,
    ) -> Outcome
        requires { out.old ≡ None }
        ensures { record { after = record { state = self.new; congestion = congestion.new }; frame = out.new; answer = result }
            ≡ with_control C.control congestion.old (heeded self.old packet.now (reads_options self.old packet.now)) }
    {
        let old = *self.rows();
        let mut reading = Reading::new();
        match self.heed_options(packet, &old, &mut reading) {
            Ok(()) => {
                hand_over(packet, &old, self.rows(), congestion);
                self.process(packet, reading.confirms(), out)
            }
            Err(fault) => self.leave(packet, Exit::Shut(fault), out),
        }
    }

    // The rows hear the options, and the windows become as wide as the rows say. A fault puts the old rows back.
    fn heed_options(
        &mut self,
        packet: &IncomingPacket<'_>,
        old: &Negotiation,
        reading: &mut Reading,
    ) -> Result<(), Fault>
        requires blank { AreBlank reading.old }
        requires old { old.now ≡ self.old.rows }
        ensures { MatchResult result
            (λ _. (reads_options self.old packet.now ≡ Ok (read_beside self.new.rows reading.new)) × (self.new ≡ with_rows self.old self.new.rows))
            (λ fault. (reads_options self.old packet.now ≡ Err fault) × (self.new ≡ self.old)) }
    {
        let count = heeds_negotiation(packet.newest, self.phase, packet.kind);
        let on_data = packet.kind.is_data();
        match heed(
            &mut self.rows,
            reading,
            packet.options,
            on_data,
            count,
            &packet.ack,
        ) {
            Ok(()) => {
                fit(&mut self.marks, &self.rows);
                Ok(())
            }
            Err(fault) => {
                self.rows = *old;
                Err(fault)
            }
        }
    }

    // Steps 2 to 7 and 9, in their order; an error if the packet leaves at one of them.
    fn take_steps(&mut self, packet: &IncomingPacket<'_>) -> Result<(), Exit>
        ensures { course self.new result ≡ through (Goes self.old) (the_steps packet.now (gate self.old.phase packet.now.kind)) }
    {
        let entrance = gate(self.phase, packet.kind);
        self.find_connection(entrance)?; // 2
        self.accept_request(packet, entrance)?; // 3
        self.take_answer(packet, entrance)?; // 4
        self.check_numbers(packet, entrance)?; // 5 and 6
        self.end_by_reset(packet)?; // 9
        self.check_type(packet) // 7
    }

    // Step 1 drops a packet that has a wrong checksum, has other ports, or has a short number that is not taken, in
    // this order.
    fn check_header(&self, bytes: &[u8], header: &Header) -> Result<Seq48, Why>
        requires low { 8 ≤ length bytes.now }
        requires high { length bytes.now ≤ 65535 }
        ensures { result ≡ checks_header self.now bytes.now header.now }
    {
        if let Err(fault) = check(&self.config.pseudo_in, bytes) {
            return Err(Why::Sum(fault));
        }
        if !is_of_connection(&self.config, header) {
            return Err(Why::OtherFlow);
        }
        self.read_number(&header.number)
    }

    // The number in full: a short one is read near GSR, if short numbers are taken.
    pub(crate) fn read_number(&self, number: &Number) -> Result<Seq48, Why>
        ensures { result ≡ read_number self.now number.now }
    {
        match *number {
            Number::Long(number) => Ok(number),
            Number::Short(short) => {
                if self.takes_short() {
                    Ok(extend(short, self.marks.gsr))
                } else {
                    Err(Why::ShortOff)
                }
            }
        }
    }

    /// The peer may send short numbers, and a first number was received.
    pub(crate) fn takes_short(&self) -> bool
        ensures { result ≡ takes_short self.now }
    {
        is_live(self.phase) && self.rows.held(Feature::ShortSeqnos, Place::There).value == 1
    }

    // The first packet of the connection is newest, and so is one after GSR.
    fn is_newest(&self, number: Seq48) -> bool
        ensures { result ≡ is_newest self.now number }
    {
        !is_live(self.phase) || self.marks.gsr.before(number)
    }

    // Step 2: without a connection a Reset is dropped, and any other packet is answered with a Reset.
    fn find_connection(&self, entrance: Entrance) -> Result<(), Exit>
        ensures { course self.now result ≡ finds_connection entrance self.now }
    {
        match entrance {
            Entrance::NoConnection => Err(Exit::ResetWithoutConnection(ResetCode::NoConnection)),
            Entrance::Stray => Err(Exit::Drop(Why::StrayReset)),
            Entrance::Accept | Entrance::InRequest | Entrance::PacketError | Entrance::Check => Ok(
                (),
            ),
        }
    }

    // Step 3: in LISTEN a Request for this service opens the connection.
    fn accept_request(
        &mut self,
        packet: &IncomingPacket<'_>,
        entrance: Entrance,
    ) -> Result<(), Exit>
        requires { entrance ≡ Entrance.Accept → IsPhaseOf phase.Respond self.old.config.role }
        ensures { course self.new result ≡ accepts_request packet.now entrance self.old }
    {
        if entrance != Entrance::Accept {
            return Ok(());
        }
        if !self.is_own_service(&packet.service) {
            return Err(Exit::ResetWithoutConnection(ResetCode::BadServiceCode));
        }
        self.start(Phase::Respond, packet);
        Ok(())
    }

    fn is_own_service(&self, service: &Option<u32>) -> bool
        ensures { result ≡ is_own_service self.now service.now }
    {
        match *service {
            Some(service) => service == self.config.service,
            None => false,
        }
    }

    // The first packet of the peer sets the first and the greatest number received.
    fn start(&mut self, phase: Phase, packet: &IncomingPacket<'_>)
        requires { IsPhaseOf phase self.old.config.role }
        ensures { self.new ≡ started self.old phase packet.now }
    {
        self.phase = phase;
        self.marks.begin(packet.kind, packet.number, packet.ack);
        self.received.start(packet.number);
    }

    // Step 4: in REQUEST a Response starts the receiving, and a Reset passes to the next steps, if they acknowledge the
    // Request.
    fn take_answer(&mut self, packet: &IncomingPacket<'_>, entrance: Entrance) -> Result<(), Exit>
        ensures { course self.new result ≡ takes_answer packet.now entrance self.old }
    {
        match entrance {
            Entrance::InRequest => self.take_response(packet),
            Entrance::PacketError => Err(Exit::PacketError),
            Entrance::NoConnection | Entrance::Stray | Entrance::Accept | Entrance::Check => Ok(()),
        }
    }

    fn take_response(&mut self, packet: &IncomingPacket<'_>) -> Result<(), Exit>
        ensures { course self.new result ≡ answers packet.now self.old packet.now.kind (acknowledges_in_window self.old packet.now) }
    {
        let acknowledges = self.marks.acknowledges(packet.ack);
        match packet.kind {
            PacketType::Reset if acknowledges => Ok(()),
            PacketType::Reset => Err(Exit::Drop(Why::StrayReset)),
            PacketType::Request
            | PacketType::Response
            | PacketType::Data
            | PacketType::Ack
            | PacketType::DataAck
            | PacketType::CloseReq
            | PacketType::Close
            | PacketType::Sync
            | PacketType::SyncAck => {
                if !acknowledges {
                    return Err(Exit::PacketError);
                }
                self.start(self.phase, packet);
                Ok(())
            }
        }
    }

    // Steps 5 and 6: a packet with valid numbers raises the greatest numbers received, unless it is a Reset.
    fn check_numbers(&mut self, packet: &IncomingPacket<'_>, entrance: Entrance) -> Result<(), Exit>
        ensures { course self.new result ≡ checks_numbers packet.now entrance self.old }
    {
        match entrance {
            Entrance::Check => match self.marks.check(packet.kind, packet.number, packet.ack) {
                Verdict::Valid => {
                    self.raise(packet);
                    Ok(())
                }
                Verdict::SyncFor(number) => Err(Exit::Sync(number)),
                Verdict::Drop => Err(Exit::Drop(Why::BadSync)),
            },
            Entrance::NoConnection
            | Entrance::Stray
            | Entrance::Accept
            | Entrance::InRequest
            | Entrance::PacketError => Ok(()),
        }
    }

    fn raise(&mut self, packet: &IncomingPacket<'_>)
        requires { verdict self.old.marks packet.now.kind packet.now.number packet.now.ack ≡ Verdict.Valid }
        ensures { Goes self.new ≡ raises packet.now self.old packet.now.kind }
    {
        match packet.kind {
            PacketType::Reset => {}
            PacketType::Request
            | PacketType::Response
            | PacketType::Data
            | PacketType::Ack
            | PacketType::DataAck
            | PacketType::CloseReq
            | PacketType::Close
            | PacketType::Sync
            | PacketType::SyncAck => {
                self.marks.take(packet.kind, packet.number, packet.ack);
            }
        }
    }

    // Step 9 comes before 7 and 8 (own): a valid Reset ends the connection, whatever its options.
    fn end_by_reset(&self, packet: &IncomingPacket<'_>) -> Result<(), Exit>
        ensures { course self.now result ≡ ends_by_reset packet.now packet.now.kind self.now }
    {
        match packet.kind {
            PacketType::Reset => Err(Exit::TimeWait(packet.code)),
            PacketType::Request
            | PacketType::Response
            | PacketType::Data
            | PacketType::Ack
            | PacketType::DataAck
            | PacketType::CloseReq
            | PacketType::Close
            | PacketType::Sync
            | PacketType::SyncAck => Ok(()),
        }
    }

    // Step 7: a packet that its phase does not expect is answered with a Sync. A Response with another service than the
    // client's ends the connection.
    fn check_type(&self, packet: &IncomingPacket<'_>) -> Result<(), Exit>
        ensures { course self.now result ≡ checks_type packet.now self.now }
    {
        if self.is_unexpected(packet) {
            return Err(Exit::Sync(packet.number));
        }
        if self.is_other_service(packet) {
            return Err(Exit::Shut(without_detail(ResetCode::BadServiceCode)));
        }
        Ok(())
    }

    fn is_unexpected(&self, packet: &IncomingPacket<'_>) -> bool
        ensures { result ≡ is_unexpected self.now packet.now }
    {
        let from_osr = !packet.number.before(self.marks.osr);
        unexpected(self.config.role, self.phase, packet.kind, from_osr)
    }

    fn is_other_service(&self, packet: &IncomingPacket<'_>) -> bool
        ensures { result ≡ is_other_service self.now self.now.phase packet.now.kind packet.now.service }
    {
        matches!(
            (self.phase, packet.kind),
            (Phase::Request, PacketType::Response)
        ) && !self.is_own_service(&packet.service)
    }

    // The packet is marked, it is the one that was taken last, and an acknowledgement is owed.
    fn mark(&mut self, number: Seq48) -> Marked
        ensures marks { self.new ≡ marks self.old number }
        ensures answer { result ≡ answer_to self.old.received.set number }
    {
        let mark = self.received.took(number);
        if matches!(mark, Marked::New) {
            self.marked = self.marked.saturating_add(1);
        }
        self.owed = true;
        self.last = number;
        mark
    }

    // What an Ack or a DataAck acknowledges is looked up among the records.
    #[inline(always)]
    fn look_up(&mut self, packet: &IncomingPacket<'_>)
        ensures { self.new ≡ looks_up self.old (looked_up packet.now.kind packet.now.ack) }
    {
        if !is_acking(packet.kind) {
            return;
        }
        if let Some(ack) = packet.ack {
            self.received.peer_acked(ack);
        }
    }

    // The packet is marked, what it acknowledges is looked up, and then come steps 10 to 16. It is inlined with what it calls,
    // so that its outcome is not written to memory by parts and read again at once.
    #[inline(always)]
    fn process(
        &mut self,
        packet: &IncomingPacket<'_>,
        confirms: &[DueConfirm],
        out: &mut Outbox,
    ) -> Outcome
        requires empty { out.old ≡ None }
        requires room { HaveRoom confirms.now }
        ensures { record { after = self.new; frame = out.new; calls = []; answer = result } ≡ processes self.old packet.now confirms.now }
    {
        let mark = self.mark(packet.number);
        self.look_up(packet);
        let (phase, reply) = after(self.phase, packet.kind);
        self.move_to(phase, packet.number);
        let delivered = self.deliver(packet, mark);
        self.reply(packet, confirms, delivered, reply, out)
    }

    // Step 16: the place of data that are new in OPEN, which count against the Ack Ratio.
    fn deliver(&mut self, packet: &IncomingPacket<'_>, mark: Marked) -> Option<(usize, usize)>
        ensures counts { self.new ≡ counts_data self.old (delivers packet.now.kind self.old.phase mark) }
        ensures place { result ≡ delivered_if (delivers packet.now.kind self.old.phase mark) packet.now.data_place }
    {
        if !(carries_data(packet.kind) && is_open(self.phase) && matches!(mark, Marked::New)) {
            return None;
        }
        self.unacked = self.unacked.saturating_add(1);
        Some(packet.data_place)
    }

    // Steps 10 to 15: the phase moves by the table, and the number with which it becomes OPEN is OSR.
    fn move_to(&mut self, phase: Phase, number: Seq48)
        requires { IsPhaseOf phase self.old.config.role }
        ensures { self.new ≡ moved_to self.old phase number }
    {
        if is_open(phase) && !is_open(self.phase) {
            self.marks.osr = number;
        }
        self.phase = phase;
    }
}
