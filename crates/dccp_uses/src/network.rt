//! Where frames go.
ghost use Rattle.std.specs.Prelude.{◌≤◌, ℕ, List, length};
ghost use Rattle.dccp_uses.specs.Handing.{Hands};

use dccp_endpoint::Outbox;

/// What carries frames to the peer: a socket, a tunnel, or a wire of a test. A frame that it does not carry is lost, as
/// the protocol expects, so there is no answer.
pub trait Network {
    // What a frame does to the network: the network before, the frame's bytes, and the network after. It is a relation,
    // and nothing that computes, since nothing is known about a socket.
    ghost sends: { Self → List ℕ → Self → Type 0 };

    /// Takes a frame for the peer, at most 2,044 bytes.
    fn send(&mut self, frame: &[u8])
        requires { length frame.now ≤ 2044 }
        ensures { sends self.old frame.now self.new };
}

// Hands over the frame that a step of an end left, if any.
pub(crate) fn hand_over<N: Network>(out: &Outbox, network: &mut N)
    ensures { Hands N.sends network.old out.now network.new }
{
    if let Some(sent) = out.sent() {
        network.send(sent.bytes);
    }
}
