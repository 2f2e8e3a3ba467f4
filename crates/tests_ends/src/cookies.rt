//! The keyed hash and the cookies, byte by byte. The hashes are test cases 1 and 2 of RFC 4231, where a shorter key is
//! filled up with zeros; the other values were computed by Python, with its `hmac` and `hashlib`.
use dccp_endpoint::{Frame, Numbers, Outbox, Pseudo, Seq48};
use dccp_options::options;
use init_cookies::{
    CookieBytes, CookieKeys, CookieOption, FirstRequest, Route, append_options, init_cookie,
    keyed_hash, one_cookie, put_request,
};

const HI_THERE: [u8; 32] = [
    0xb0, 0x34, 0x4c, 0x61, 0xd8, 0xdb, 0x38, 0x53, 0x5c, 0xa8, 0xaf, 0xce, 0xaf, 0x0b, 0xf1, 0x2b,
    0x88, 0x1d, 0xc2, 0x00, 0xc9, 0x83, 0x3d, 0xa7, 0x26, 0xe9, 0x37, 0x6c, 0x2e, 0x32, 0xcf, 0xf7,
];

const WHAT_DO_YA_WANT: [u8; 32] = [
    0x5b, 0xdc, 0xc1, 0x46, 0xbf, 0x60, 0x75, 0x4e, 0x6a, 0x04, 0x24, 0x26, 0x08, 0x95, 0x75, 0xc7,
    0x5a, 0x00, 0x3f, 0x08, 0x9d, 0x27, 0x39, 0x83, 0x9d, 0xec, 0x58, 0xb9, 0x64, 0xec, 0x38, 0x43,
];

// A Change L of CCID and a Change R of Send Ack Vector.
const OPTIONS: [u8; 8] = [32, 4, 1, 2, 34, 4, 6, 1];

// A cookie: the tag over 10.0.0.1 port 40000 to 10.0.0.2 port 5001, the time 1000, the first number 2000, the Request's
// number 1000, its service 42 and its options.
const COOKIE: [u8; 40] = [
    0x99, 0x19, 0x9c, 0xb3, 0xd1, 0xbb, 0x41, 0x8f, 0, 0, 0, 0, 0, 0, 0x03, 0xe8, 0, 0, 0, 0, 0x07,
    0xd0, 0, 0, 0, 0, 0x03, 0xe8, 0, 0, 0, 0x2a, 0x20, 4, 1, 2, 0x22, 4, 6, 1,
];

// The tag of the same opening between addresses of IPv6.
const SIX_TAG: [u8; 8] = [0x91, 0x99, 0xf4, 0x95, 0x8b, 0xd6, 0xa9, 0xf8];

const REQUEST: [u8; 28] = [
    0x9c, 0x40, 0x13, 0x89, 7, 0, 0xe6, 0xd8, 1, 0, 0, 0, 0, 0, 0x03, 0xe8, 0, 0, 0, 42, 0x20, 4,
    1, 2, 0x22, 4, 6, 1,
];

const RESPONSE: [u8; 28] = [
    0x13, 0x89, 0x9c, 0x40, 7, 0, 0x26, 0x14, 3, 0, 0, 0, 0, 0, 0x07, 0xd0, 0, 0, 0, 0, 0, 0, 0x03,
    0xe8, 0, 0, 0, 42,
];

// The same with the cookie.
const LONGER: [u8; 72] = [
    0x13, 0x89, 0x9c, 0x40, 0x12, 0, 0x54, 0xd0, 3, 0, 0, 0, 0, 0, 0x07, 0xd0, 0, 0, 0, 0, 0, 0,
    0x03, 0xe8, 0, 0, 0, 42, 36, 42, 0x99, 0x19, 0x9c, 0xb3, 0xd1, 0xbb, 0x41, 0x8f, 0, 0, 0, 0, 0,
    0, 0x03, 0xe8, 0, 0, 0, 0, 0x07, 0xd0, 0, 0, 0, 0, 0x03, 0xe8, 0, 0, 0, 0x2a, 0x20, 4, 1, 2,
    0x22, 4, 6, 1, 0, 0,
];

// Three keys, each of 32 bytes in turn.
const FIRST_KEY: [u8; 32] = [
    0, 1, 2, 3, 4, 5, 6, 7, 8, 9, 10, 11, 12, 13, 14, 15, 16, 17, 18, 19, 20, 21, 22, 23, 24, 25,
    26, 27, 28, 29, 30, 31,
];

const SECOND_KEY: [u8; 32] = [
    100, 101, 102, 103, 104, 105, 106, 107, 108, 109, 110, 111, 112, 113, 114, 115, 116, 117, 118,
    119, 120, 121, 122, 123, 124, 125, 126, 127, 128, 129, 130, 131,
];

const THIRD_KEY: [u8; 32] = [
    200, 201, 202, 203, 204, 205, 206, 207, 208, 209, 210, 211, 212, 213, 214, 215, 216, 217, 218,
    219, 220, 221, 222, 223, 224, 225, 226, 227, 228, 229, 230, 231,
];

fn four(last: u8) -> Route {
    Route {
        pseudo: Pseudo::V4 {
            from: [10, 0, 0, last],
            to: [10, 0, 0, 2],
        },
        from: 40000,
        to: 5001,
    }
}

fn six() -> Route {
    Route {
        pseudo: Pseudo::V6 {
            from: [0, 1, 2, 3, 4, 5, 6, 7, 8, 9, 10, 11, 12, 13, 14, 15],
            to: [
                16, 17, 18, 19, 20, 21, 22, 23, 24, 25, 26, 27, 28, 29, 30, 31,
            ],
        },
        from: 40000,
        to: 5001,
    }
}

fn opening() -> Option<FirstRequest> {
    let iss = Seq48::new(2000)?;
    let number = Seq48::new(1000)?;
    FirstRequest::new(1000, iss, number, 42, &OPTIONS)
}

fn written(keys: &CookieKeys, route: &Route) -> CookieBytes {
    let mut bytes = CookieBytes::new();
    if let Some(opening) = opening() {
        keys.write(route, &opening, &mut bytes);
    }
    bytes
}

fn is_good(keys: &CookieKeys, route: &Route, bytes: &[u8], now: u64) -> bool {
    keys.read(route, bytes, now).is_some()
}

#[test]
fn hashes_are_those_of_the_standard(rt: HostRuntime) {
    let mut first = [0; 32];
    first[..20].fill(0x0b);
    let mut second = [0; 32];
    second[..4].copy_from_slice(b"Jefe");
    assert!(rt;
        keyed_hash(&first, b"Hi There") == HI_THERE
            && keyed_hash(&second, b"what do ya want for nothing?") == WHAT_DO_YA_WANT
    );
}

#[test]
fn a_cookie_byte_by_byte(rt: HostRuntime) {
    let keys = CookieKeys::new(FIRST_KEY, 0);
    assert!(rt; written(&keys, &four(1)).as_slice() == COOKIE.as_slice());
    assert!(rt; written(&keys, &six()).as_slice().starts_with(&SIX_TAG));
}

// The end of the address that the cookie comes from, the time, and whether it is good then.
const TRIES: [(u8, u64, bool); 5] = [
    (1, 1000, true),
    (1, 121_000, true),
    (1, 121_001, false),
    (1, 999, false),
    (3, 1000, false),
];

#[test]
fn a_cookie_is_good_for_two_minutes_on_its_route(rt: HostRuntime) {
    let keys = CookieKeys::new(FIRST_KEY, 0);
    for (last, now, good) in &TRIES {
        assert!(rt;
            is_good(&keys, &four(*last), &COOKIE, *now) == *good,
            "{last} at {now}"
        );
    }
    let mut changed = COOKIE;
    changed[39] = 0;
    assert!(rt;
        !is_good(&keys, &four(1), &changed, 1000) && !is_good(&keys, &four(1), &COOKIE[..31], 1000)
    );
}

#[test]
fn a_key_that_was_changed_is_good_for_what_it_wrote(rt: HostRuntime) {
    let mut keys = CookieKeys::new(FIRST_KEY, 0);
    keys.change(SECOND_KEY, 2000);
    let kept = is_good(&keys, &four(1), &COOKIE, 3000);
    let mut late = CookieKeys::new(FIRST_KEY, 0);
    late.change(SECOND_KEY, 1000);
    let too_late = is_good(&late, &four(1), &COOKIE, 3000);
    keys.change(THIRD_KEY, 4000);
    let forgotten = !is_good(&keys, &four(1), &COOKIE, 4000);
    assert!(rt; kept && !too_late && forgotten);
}

#[test]
fn a_request_is_spelled_again(rt: HostRuntime) {
    let mut frame = Frame::new();
    if let Some(opening) = opening() {
        put_request(&four(1), &opening, &mut frame);
    }
    assert!(rt; frame.bytes() == REQUEST.as_slice());
}

// Whether the Response goes out with the cookie.
fn is_lengthened() -> bool {
    let (Some(number), Some(ack)) = (Seq48::new(2000), Seq48::new(1000)) else {
        return false;
    };
    let Some(frame) = Frame::of(&RESPONSE) else {
        return false;
    };
    let numbers = Numbers {
        number,
        ack: Some(ack),
    };
    let mut out = Outbox::new();
    out.put(frame, numbers);
    let mut option = CookieOption::new();
    init_cookie(&COOKIE, &mut option);
    append_options(&mut out, option.as_slice(), &four(1).back());
    match out.frame() {
        Some(longer) => longer.bytes() == LONGER.as_slice(),
        None => false,
    }
}

#[test]
fn a_response_goes_out_with_its_cookie(rt: HostRuntime) {
    assert!(rt; is_lengthened());
}

// What a client returns of these options.
fn returned(area: &[u8; 16]) -> CookieOption {
    let mut option = CookieOption::new();
    one_cookie(&options(area, false), &mut option);
    option
}

// Two Init Cookies of two bytes are no cookie; after NDP Counts the only one is found.
const RETURNED: [([u8; 16], &[u8]); 3] = [
    ([36, 4, 1, 2, 36, 4, 3, 4, 0, 0, 0, 0, 0, 0, 0, 0], &[]),
    (
        [37, 4, 1, 2, 36, 4, 3, 4, 37, 3, 9, 0, 0, 0, 0, 0],
        &[36, 4, 3, 4],
    ),
    ([37, 4, 1, 2, 37, 4, 3, 4, 0, 0, 0, 0, 0, 0, 0, 0], &[]),
];

#[test]
fn a_client_returns_one_cookie(rt: HostRuntime) {
    for (place, (area, cookie)) in RETURNED.iter().enumerate() {
        assert!(rt; returned(area).as_slice() == *cookie, "area {place}");
    }
}
