//! Where IP begins.
ghost use Rattle.std.specs.Prelude.{◌≡◌, ◌+◌, ◌<◌, length, IfSome};
ghost use Rattle.bridge_links.specs.Starts.{ip_at, ip_at_either, start_after};

/// IP of this version begins here.
pub(crate) fn ip_at(version: u8, start: usize, bytes: &[u8]) -> Option<usize>
    ensures value { result ≡ ip_at version start bytes.now }
    ensures within { IfSome result (λ n. n < length bytes.now) }
{
    if start < bytes.len() && bytes[start] / 16 == version {
        return Some(start);
    }
    None
}

/// IP of either version begins here.
pub(crate) fn ip_at_either(start: usize, bytes: &[u8]) -> Option<usize>
    ensures value { result ≡ ip_at_either start bytes.now }
    ensures within { IfSome result (λ n. n < length bytes.now) }
{
    match ip_at(4, start, bytes) {
        Some(start) => Some(start),
        None => ip_at(6, start, bytes),
    }
}

/// A place that was found in the bytes after this many, counted from the beginning.
pub(crate) fn start_after(size: usize, found: Option<usize>, bytes: &[u8]) -> Option<usize>
    requires { IfSome found (λ n. size + n < length bytes.now) }
    ensures value { result ≡ start_after size found }
    ensures within { IfSome result (λ n. n < length bytes.now) }
{
    match found {
        Some(start) => Some(size + start),
        None => None,
    }
}
