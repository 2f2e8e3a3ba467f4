//! Each public call of seq_circle, dccp_sum, dccp_packets, dccp_options, validity_windows and dccp_states, run once.
//! What the calls return for other values is computed from their definitions by the worked rows of `proofs/`.
ghost use Rattle.std.specs.Prelude.{◌≤◌, length};

use dccp_options::kinds::{ACK_VECTOR_0, CHANGE_L};
use dccp_options::{AckReport, OptFull, OptWriter, options};
use dccp_packets::{
    Frame, Header, Kind, MOST_FRAME_BYTES, Malformed, Number, Numbers, OptionsTooLong, Outbox,
    PacketType, ResetCode, begin, decode, encode, finish,
};
use dccp_states::{Entrance, Phase, Reply, Role, after, gate, unexpected};
use dccp_sum::{Pseudo, SumFault, check, checksum, covered, seal};
use seq_circle::{Seq24, Seq48, extend};
use std::test::Fail;
use validity_windows::{Marks, Verdict};

// The last number and the first, which follows it.
fn are_around_the_end(last: Seq48, first: Seq48) -> bool {
    last.next() == first
        && last.add(2).get() == 1
        && last.sub(3).get() == 281_474_976_710_652
        && last.distance(first) == 1
        && last.before(first)
        && last.max_of(first) == first
        && first.is_from(last)
        && first.open_end().get() == 140_737_488_355_327
        && last.within(last, first)
        && !first.is_far(last)
        && extend(last.low(), first) == last
}

fn around_the_end() -> Option<bool> {
    let last = Seq48::new(281_474_976_710_655)?;
    Some(are_around_the_end(last, Seq48::new(0)?))
}

#[test]
fn numbers_around_the_end(rt: HostRuntime) {
    assert!(rt; around_the_end() == Some(true));
}

// Short numbers, references, and the numbers that they mean there.
const EXTENDED: [(u32, u64, u64); 4] = [
    (0x00_0005, 0x0000_01ff_fff0, 0x0000_0200_0005),
    (0xff_fff0, 0x0000_0200_0005, 0x0000_01ff_fff0),
    (7, 0, 7),
    (0xff_ffff, 0, 0xffff_ffff_ffff),
];

fn extended(short: u32, reference: u64) -> Option<u64> {
    Some(extend(Seq24::new(short)?, Seq48::new(reference)?).get())
}

#[test]
fn numbers_that_are_extended(rt: HostRuntime) {
    for (short, reference, number) in &EXTENDED {
        assert!(rt; extended(*short, *reference) == Some(*number), "{short}");
    }
}

fn greatest_short() -> Option<u32> {
    Some(Seq24::new(16_777_215)?.get())
}

#[test]
fn widths_of_numbers(rt: HostRuntime) {
    assert!(rt; greatest_short() == Some(16_777_215));
    assert!(rt; Seq48::new(281_474_976_710_656).is_none() && Seq24::new(16_777_216).is_none());
}

// A Request from port 40000 to 5001 with number 1000 and service 42, over IPv4.
const REQUEST: [u8; 20] = [
    0x9c, 0x40, 0x13, 0x89, 5, 0, 0x31, 0xec, 1, 0, 0, 0, 0, 0, 0x03, 0xe8, 0, 0, 0, 42,
];

const TO_SERVER: Pseudo = Pseudo::V4 {
    from: [10, 0, 0, 1],
    to: [10, 0, 0, 2],
};

#[test]
fn a_request_is_sealed(rt: HostRuntime) {
    let mut packet = REQUEST;
    packet[6] = 0;
    assert!(rt; check(&TO_SERVER, &packet).is_err() && covered(&packet) == Some(20));
    assert!(rt;
        seal(&TO_SERVER, &mut packet)
            && packet == REQUEST
            && checksum(&TO_SERVER, &packet, 20) == 0x31ec
    );
}

// The header of a packet.
fn header_of(bytes: &[u8]) -> Option<Header> {
    match decode(bytes) {
        Ok(packet) => Some(packet.header),
        Err(_) => None,
    }
}

// One byte of the Request that is changed, and the fault that it makes.
const REFUSED: [(usize, u8, Malformed); 4] = [
    (8, 0x15, Malformed::ReservedType),
    (4, 0x04, Malformed::OffsetSmall),
    (4, 0x06, Malformed::OffsetLarge),
    (8, 0x00, Malformed::ShortNumbers),
];

// Whether the Request with this byte at this place is refused for this fault.
fn is_refused(place: usize, byte: u8, fault: Malformed) -> bool {
    let mut packet = REQUEST;
    if packet.len() <= place {
        return false;
    }
    packet[place] = byte;
    decode(&packet) == Err(fault)
}

#[test]
fn requests_that_are_refused(rt: HostRuntime) {
    assert!(rt; decode(&REQUEST[..11]) == Err(Malformed::Short));
    for (place, byte, fault) in &REFUSED {
        assert!(rt; is_refused(*place, *byte, *fault), "{fault:?}");
    }
}

// A Response with four options, which settle Ack Vectors and ECN Incapable.
const RESPONSE: [u8; 52] = [
    0x13, 0x89, 0x9c, 0x40, 0x0d, 0, 0xa1, 0xc3, 3, 0, 0, 0, 0, 0, 7, 0xd0, 0, 0, 0, 0, 0, 0, 3,
    0xe8, 0, 0, 0, 42, 0x23, 6, 4, 1, 1, 0, 0x21, 6, 6, 1, 1, 0, 1, 0x20, 4, 4, 1, 1, 0x22, 4, 6,
    1, 0, 0,
];

// If it is cut within the first 12 bytes, it is too short to be read; if it is cut after them, its Data Offset points
// past its end.
#[test]
fn a_response_that_is_cut(rt: HostRuntime) {
    for length in 0..RESPONSE.len() {
        let fault = if length < 12 {
            Malformed::Short
        } else {
            Malformed::OffsetLarge
        };
        assert!(rt; decode(&RESPONSE[..length]) == Err(fault), "{length} bytes");
    }
}

const TO_CLIENT: Pseudo = Pseudo::V4 {
    from: [10, 0, 0, 2],
    to: [10, 0, 0, 1],
};

// Written in pieces it has the same bytes: its header, its options, of which the last byte by the vector, and no data.
fn writes_in_pieces() -> bool {
    let Some(header) = header_of(&RESPONSE) else {
        return false;
    };
    if !header.valid() {
        return false;
    }
    let mut out = Frame::new();
    begin(&header, &mut out);
    out.append(&RESPONSE[28..51]);
    out.vector_mut().push(RESPONSE[51]);
    finish(&[], &mut out);
    out.bytes() == RESPONSE.as_slice()
}

#[test]
fn a_response_in_pieces(rt: HostRuntime) {
    assert!(rt; writes_in_pieces());
}

// With one more byte it has another length, which its checksum covers.
#[test]
fn a_response_and_a_byte(rt: HostRuntime) {
    let mut longer = [0; 53];
    longer[..52].copy_from_slice(&RESPONSE);
    assert!(rt;
        check(&TO_CLIENT, &RESPONSE).is_ok() && check(&TO_CLIENT, &longer) == Err(SumFault::Wrong)
    );
}

// With reserved bits set it is read as before, and only its checksum differs.
#[test]
fn a_request_with_reserved_bits(rt: HostRuntime) {
    let mut packet = REQUEST;
    packet[9] = 0xff;
    assert!(rt; header_of(&packet).is_some() && header_of(&packet) == header_of(&REQUEST));
    assert!(rt; check(&TO_SERVER, &packet) == Err(SumFault::Wrong));
}

// Whether more options are refused than fit, and what was written before then stays.
fn keeps_its_frame(header: &Header, bytes: &[u8]) -> bool {
    let Some(mut out) = Frame::of(bytes) else {
        return false;
    };
    header.valid()
        && encode(header, &[0; 1001], &[], &mut out) == Err(OptionsTooLong)
        && out.bytes() == bytes
}

// Whether the longest frame is written, with three zeros after its options.
fn writes_the_longest(header: &Header) -> bool {
    let mut out = Frame::new();
    if !header.valid() || encode(header, &[2; 997], &[7; 1024], &mut out).is_err() {
        return false;
    }
    out.bytes().len() == MOST_FRAME_BYTES && options_end_in_zeros(out.bytes())
}

fn options_end_in_zeros(frame: &[u8]) -> bool {
    match decode(frame) {
        Ok(packet) => packet.options.len() == 1000 && packet.options.ends_with(&[2, 0, 0, 0]),
        Err(_) => false,
    }
}

// What does not hold of the header of the Request.
fn fault_of_lengths() -> Option<&'static str> {
    let Some(header) = header_of(&REQUEST) else {
        return Some("a Request");
    };
    if !keeps_its_frame(&header, &REQUEST) {
        return Some("a byte of options too many");
    }
    if !writes_the_longest(&header) {
        return Some("as many as fit");
    }
    if Frame::of(&[0; 2045]).is_some() {
        return Some("a byte of a frame too many");
    }
    None
}

#[test]
fn options_that_do_not_fit(rt: HostRuntime) {
    let fault = fault_of_lengths();
    assert!(rt; MOST_FRAME_BYTES == 2044 && fault.is_none(), "{fault:?}");
}

// A frame of three bytes, whose middle byte was changed.
fn changed_frame() -> Option<Frame> {
    let mut frame = Frame::of(&[1, 2, 3])?;
    let bytes = frame.bytes_mut();
    if bytes.len() != 3 {
        return None;
    }
    bytes[1] = 9;
    Some(frame)
}

// Whether an Outbox holds a frame of these bytes.
fn has_frame(out: &Outbox, bytes: &[u8]) -> bool {
    match out.frame() {
        Some(frame) => frame.bytes() == bytes,
        None => false,
    }
}

// Whether it holds the frame, and nothing after it is emptied.
fn holds_until_emptied(out: &mut Outbox) -> bool {
    if !has_frame(out, &[1, 9, 3]) {
        return false;
    }
    out.clear();
    out.frame().is_none()
}

// Whether it holds a frame without bytes that was begun.
fn holds_begun(out: &mut Outbox, numbers: Numbers) -> bool {
    out.begin(numbers).bytes().is_empty() && has_frame(out, &[])
}

// The numbers of a packet that acknowledges another.
fn two_numbers() -> Option<Numbers> {
    let number = Seq48::new(7)?;
    let ack = Seq48::new(5);
    Some(Numbers { number, ack })
}

// Whether an Outbox has these numbers of its frame.
fn has_numbers(out: &Outbox, numbers: Numbers) -> bool {
    match out.sent() {
        Some(sent) => sent.number == numbers.number && sent.ack == numbers.ack,
        None => false,
    }
}

#[test]
fn one_frame_in_an_outbox(rt: HostRuntime) -> Result<(), Fail> {
    let mut out = Outbox::new();
    assert!(rt; out.frame().is_none(), "a new one");
    let numbers = two_numbers().ok_or("two numbers")?;
    out.put(changed_frame().ok_or("three bytes")?, numbers);
    assert!(rt; has_numbers(&out, numbers), "the numbers of what was put");
    assert!(rt; holds_until_emptied(&mut out), "what was put");
    assert!(rt; holds_begun(&mut out, numbers), "what was begun");
    Ok(())
}

fn is_short_ack(kind: &Kind, number: Seq48) -> bool {
    let packet_type = kind.packet_type();
    packet_type.code() == 3
        && packet_type.has_ack()
        && packet_type.may_be_short()
        && !packet_type.is_data()
        && kind.ack() == Some(Number::in_form(number, true).value())
        && kind.ack_near(number.next()) == Some(number)
        && Number::in_form(number, true).near(number.next()) == number
        && kind.service().is_none()
        && kind.reset_code() == 0
}

// Whether an Ack of the number has its short form, from which the number is found again.
fn has_short_ack(number: u64) -> Option<bool> {
    let number = Seq48::new(number)?;
    let long = Kind::Ack {
        ack: Number::in_form(number, false),
    };
    Some(is_short_ack(&long.in_form(true), number))
}

#[test]
fn a_short_ack(rt: HostRuntime) {
    assert!(rt; has_short_ack(1_108_160_546_054) == Some(true));
}

#[test]
fn codes_of_resets(rt: HostRuntime) {
    let read = matches!(ResetCode::of(11), Some(ResetCode::AggressionPenalty));
    assert!(rt; read && ResetCode::AggressionPenalty.number() == 11);
}

// The numbers of an Ack Vector at 100, down to the first below it, and the state of each.
const STATES: [(u64, Option<u8>); 14] = [
    (100, Some(0)),
    (99, Some(3)),
    (98, Some(0)),
    (97, Some(0)),
    (96, Some(0)),
    (95, Some(0)),
    (94, Some(1)),
    (93, Some(0)),
    (92, Some(0)),
    (91, Some(0)),
    (90, Some(0)),
    (89, Some(0)),
    (88, Some(0)),
    (87, None),
];

fn has_states(report: &AckReport<'_>) -> Option<bool> {
    for (number, state) in &STATES {
        if report.state(Seq48::new(*number)?) != *state {
            return None;
        }
    }
    Some(true)
}

// Whether the vector, after another option, has these states, and begins with a run of one.
fn states_told() -> Option<bool> {
    let ack = Seq48::new(100)?;
    let list = options(&[2, ACK_VECTOR_0, 7, 0x00, 0xc0, 0x03, 0x40, 0x05], false);
    let report = AckReport::of(ack, list.again())?;
    let run = report.runs().next()?;
    Some(has_states(&report)? && run.count == 1)
}

// Whether the first option is understood.
fn is_first_understood(area: &[u8]) -> bool
    requires { length area.now ≤ 1008 }
{
    match options(area, false).next() {
        Some(Ok(option)) => option.is_understood(),
        _ => false,
    }
}

#[test]
fn options_that_are_read(rt: HostRuntime) {
    assert!(rt; states_told() == Some(true));
    assert!(rt; is_first_understood(&[CHANGE_L, 4, 6, 1]));
}

// Whether an option is written.
fn puts(writer: &mut OptWriter, mandatory: bool, kind: u8, body: &[u8]) -> bool {
    32 <= kind && body.len() <= 253 && writer.put(mandatory, kind, body).is_ok()
}

// Whether an option is refused for lack of room.
fn is_full(writer: &mut OptWriter, mandatory: bool, body: &[u8]) -> bool {
    body.len() <= 253 && writer.put(mandatory, CHANGE_L, body) == Err(OptFull)
}

// Whether there is room for three long options, and for a fourth that is not longer than this.
fn is_filled(writer: &mut OptWriter) -> bool {
    let body = [0; 253];
    for _ in 0..3 {
        if !puts(writer, false, 255, &body) {
            return false;
        }
    }
    is_full(writer, true, &body[..241])
        && writer.bytes().len() == 765
        && puts(writer, true, CHANGE_L, &body[..240])
}

#[test]
fn full_writer(rt: HostRuntime) {
    let mut writer = OptWriter::new();
    assert!(rt; is_filled(&mut writer), "room for 1,008 bytes");
    assert!(rt;
        writer.bytes().len() == 1008 && is_full(&mut writer, false, &[]),
        "and no more"
    );
}

// Whether marks that began with a Response take the numbers of a Sync, and what their windows are.
fn take_a_sync(number: Seq48, first: Seq48) -> bool {
    let mut marks = Marks::new(first, 100);
    marks.begin(PacketType::Response, number, Some(first));
    let next = number.next();
    if marks.check(PacketType::Sync, next, Some(first)) != Verdict::Valid {
        return false;
    }
    marks.take(PacketType::Sync, next, Some(first));
    marks.gsr == next && marks.acknowledges(Some(first)) && marks.windows().swl == number
}

fn taken() -> Option<bool> {
    Some(take_a_sync(Seq48::new(2000)?, Seq48::new(0)?))
}

#[test]
fn marks_take_a_sync(rt: HostRuntime) {
    assert!(rt; taken() == Some(true));
}

#[test]
fn a_close_in_an_open_phase(rt: HostRuntime) {
    let unexpected = unexpected(Role::Server, Phase::Open, PacketType::Close, true);
    assert!(rt; !unexpected && gate(Phase::Open, PacketType::Close) == Entrance::Check);
    assert!(rt; after(Phase::Open, PacketType::Close) == (Phase::Closed, Reply::ResetClosed));
}
