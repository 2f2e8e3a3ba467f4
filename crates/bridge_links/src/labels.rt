//! Where IP begins under the labels of MPLS (RFC 3032, section 2.1).
ghost use Rattle.std.specs.Prelude.{◌≡◌, ◌≤◌, ◌<◌, length, IfSome};
ghost use Rattle.bridge_links.specs.Labels as spec;

use crate::starts::ip_at_either;

// The bytes of a label.
const LABEL: usize = 4;

// The most labels that are skipped.
const MOST_LABELS: u8 = 16;

/// IP under the labels that begin here.
pub(crate) fn ip_in_labels(first: usize, bytes: &[u8]) -> Option<usize>
    requires { first ≤ 128 }
    ensures value { result ≡ spec.ip_in_labels first bytes.now }
    ensures within { IfSome result (λ n. n < length bytes.now) }
{
    let mut place = first;
    let mut left = MOST_LABELS;
    while 0 < left && place + LABEL <= bytes.len() {
        if bytes[place + 2] % 2 == 1 {
            return ip_at_either(place + LABEL, bytes);
        }
        place += LABEL;
        left -= 1;
    }
    None
}
