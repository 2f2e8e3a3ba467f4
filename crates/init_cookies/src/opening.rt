//! What a Request asked for, and the Request written again.
ghost use Rattle.std.specs.Prelude.{◌≡◌, ◌≤◌, [], IsTrue, length};
ghost use Rattle.dccp_packets.specs.Grammar.{header_length, is_valid, spelling};
ghost use Rattle.init_cookies.specs.Openings.{request_bytes, request_header};

use crate::Route;
use arrayvec::ArrayVec;
use byteorder::{BigEndian, ByteOrder};
use dccp_endpoint::seal_frame;
use dccp_packets::{Frame, Header, Kind, Number, encode};
use seq_circle::Seq48;
use std::marker::Model;

/// The most bytes of options that a Request may have to be answered by a cookie: with the rest they fit one option of 253
/// bytes (RFC 4340, section 8.1.4).
pub const MOST_REQUEST_OPTIONS: usize = 220;

/// What a Request asked for, when it was answered, and under which first number: all that opens its connection later.
#[derive(Drop)]
pub struct FirstRequest {
    time: u64,
    iss: Seq48,
    number: Seq48,
    service: u32,
    options: ArrayVec<u8, MOST_REQUEST_OPTIONS>,
}

impl Model for FirstRequest {
    ghost use Rattle.std.specs.Prelude.{◌≤◌, length};
    ghost use Rattle.init_cookies.specs.Openings.{OpeningState};

    ghost Value = { OpeningState };

    ghost view = { λ o. record { time = o.time; iss = o.iss; number = o.number; service = o.service; options = o.options.items } };

    ghost invariant = { λ o. length o.options.items ≤ 220 };
}

// The bytes of an opening: 24, and its options.
pub(crate) type OpeningBytes = ArrayVec<u8, 245>;

impl FirstRequest {
    ghost use Rattle.std.specs.Prelude.{◌≡◌, ◌≤◌, ◌↔◌, [], IsSome, IfSome, length};
    ghost use Rattle.init_cookies.specs.Openings.{opening_bytes};

    /// A Request of this number, service and option area was answered at this time, in milliseconds, by a Response of
    /// this number. None exactly if the area is longer than `MOST_REQUEST_OPTIONS`, 220 bytes.
    pub fn new(
        time: u64,
        iss: Seq48,
        number: Seq48,
        service: u32,
        area: &[u8],
    ) -> Option<FirstRequest>
        ensures made { IsSome result ↔ (length area.now ≤ 220) }
        ensures value { IfSome result (λ o. o ≡ record { time = time; iss = iss; number = number; service = service; options = area.now }) }
    {
        let mut options = ArrayVec::new();
        match options.try_extend_from_slice(area) {
            Ok(()) => Some(FirstRequest {
                time,
                iss,
                number,
                service,
                options,
            }),
            Err(_) => None,
        }
    }

    /// When the Request was answered, in milliseconds.
    pub fn time(&self) -> u64
        ensures { result ≡ self.now.time }
    {
        self.time
    }

    /// The number of the Response.
    pub fn iss(&self) -> Seq48
        ensures { result ≡ self.now.iss }
    {
        self.iss
    }

    fn options(&self) -> &[u8]
        ensures value { result.now ≡ self.now.options }
        ensures short { length result.now ≤ 220 }
    {
        self.options.as_slice()
    }

    // Its bytes.
    pub(crate) fn put(&self, out: &mut OpeningBytes)
        requires { out.old.items ≡ [] }
        ensures value { out.new.items ≡ opening_bytes self.now }
        ensures short { length out.new.items ≤ 244 }
    {
        let mut front = [0; 24];
        BigEndian::write_u64(&mut front, self.time);
        BigEndian::write_u48(&mut front[8..], self.iss.get());
        BigEndian::write_u48(&mut front[14..], self.number.get());
        BigEndian::write_u32(&mut front[20..], self.service);
        let _ = out.try_extend_from_slice(&front);
        let _ = out.try_extend_from_slice(self.options.as_slice());
    }
}

// The header of the Request, with a checksum of zero.
fn request_header(route: &Route, opening: &FirstRequest) -> Header
    ensures { result ≡ request_header route.now opening.now }
{
    Header {
        from: route.from,
        to: route.to,
        ccval: 0,
        cscov: 0,
        checksum: 0,
        number: Number::Long(opening.number),
        kind: Kind::Request {
            service: opening.service,
        },
    }
}

// Writes a Request with these options, without data.
#[tactic(auto, using(crate::proofs::Fitting::request_fits))]
fn spell(header: &Header, options: &[u8], out: &mut Frame)
    requires valid { IsTrue (is_valid header.now) }
    requires fixed { header_length header.now ≡ 20 }
    requires short { length options.now ≤ 220 }
    ensures spelled { out.new ≡ spelling header.now options.now [] }
    ensures long { 8 ≤ length out.new }
{
    let _ = encode(header, options, &[], out);
}

/// Writes the Request again, in place of what was in the frame, without the data that it may have had: no end in LISTEN
/// delivers data (RFC 4340, section 8.5, step 3).
pub fn put_request(route: &Route, opening: &FirstRequest, out: &mut Frame)
    ensures { out.new ≡ request_bytes route.now opening.now }
{
    let header = request_header(route, opening);
    spell(&header, opening.options(), out);
    seal_frame(&route.pseudo, out);
}
