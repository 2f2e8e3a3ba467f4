//! The value that two preference lists settle on.
ghost use Rattle.std.specs.Prelude.{◌≡◌};
ghost use Rattle.feature_lists.specs.Lists.{reconciled};

/// The value of a server-priority feature that two preference lists settle on (RFC 4340, section 6.3.1): the first
/// entry of the server's list that is in the client's list, or None exactly if there is none.
pub fn reconcile(server: &[u8], client: &[u8]) -> Option<u8>
    ensures { result ≡ reconciled server.now client.now }
{
    server.iter().copied().find(|value| client.contains(value))
}
