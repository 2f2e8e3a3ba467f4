//! Laws above the definitions.
ghost use Rattle.std.specs.Prelude.{◌≡◌, ◌↔◌, ◌++◌, ℕ, List, None, Some, Ok, Err, false, flat_map, map};
ghost use Rattle.dccp_io.specs.Lines.{lines_of};
ghost use Rattle.dccp_listener.specs.Calls.{IsBusy};
ghost use Rattle.dccp_listener.specs.Chain.{Deed};
ghost use Rattle.dccp_listener.specs.Listens.{AreInOrder, listens};
ghost use Rattle.dccp_listener.specs.Peers.{ListenerState};
ghost use Rattle.dccp_listener.specs.Runs.{WasBusy};
ghost use Rattle.dccp_listener.specs.declared.peer.Peer.{Peer};
ghost use Rattle.tool_text.specs.Lines.{IsIdle, IsSpokenLine, first_fault};
ghost use Rattle.tool_text.specs.declared.words.faults.LineFault.{LineFault};
ghost use Rattle.tool_jobs.specs.Calls.{peer_row, read_call};
ghost use Rattle.tool_jobs.specs.Listen.{EachPeerOfAnInputHasItsChain, EveryInputIsARun, listen_refused, listen_text, listened};
ghost use Rattle.tool_jobs.specs.PeerLines.{exchange_said, said_by_lines};
ghost use Rattle.tool_jobs.specs.Telling.{exchange_text, flow_lines};
ghost use Rattle.tool_jobs.specs.declared.listen.calls.PeerCall.{PeerCall};

/// For every input, what is written is the run of a listener (`run`). So each peer gets the answers and frames that a
/// server for it alone would have given to its lines, without those that found the listener busy (`chains`). If no line
/// is refused, the text is that of the exchanges, one after another, and then of the flows (`text`), in the order of
/// their peers (`ordered`). The exchanges are those of just the lines that say something, in their order: with the
/// line's number, its peer and what it says (`lines`). The answer is Busy exactly if the peer has no flow and would get
/// one, and there are as many as are allowed (`busy`; own).
pub fn each_peer_is_answered_by_its_chain()
    ensures run { EveryInputIsARun }
    ensures chains { EachPeerOfAnInputHasItsChain }
    ensures text { (most : ℕ) (input : List ℕ) → listen_refused most input ≡ false
        → listen_text most input ≡ flat_map exchange_text (listened most input).deeds ++ flow_lines (listened most input).last.listener.flows }
    ensures lines { (most : ℕ) (input : List ℕ) → listen_refused most input ≡ false
        → map exchange_said (listened most input).deeds ≡ said_by_lines 1 0 (lines_of input) }
    ensures ordered { (most : ℕ) (input : List ℕ) → AreInOrder (listened most input).last.listener.flows }
    ensures busy { (l : ListenerState) (peer : Peer) (deed : Deed) → ((listens l peer deed).told ≡ WasBusy) ↔ IsBusy l peer deed }
{}

/// A line is accepted exactly if it is the words of what it says, separated by one space: a peer in its only spelling,
/// and a call or a frame, whose digits may be of either case (`said`); or if it is empty or a comment (`idle`; own).
pub fn lines_of_peers_are_their_forms()
    ensures said { (text : List ℕ) (said : Peer × PeerCall)
        → (read_call text ≡ Ok (Some said)) ↔ IsSpokenLine peer_row text said }
    ensures idle { (text : List ℕ) → (read_call text ≡ Ok None) ↔ IsIdle text }
{}

/// A line is refused exactly for its first fault, at that fault's column (own).
pub fn the_first_fault_of_a_peer_line_is_answered()
    ensures { (text : List ℕ) (fault : LineFault)
        → (read_call text ≡ Err fault) ↔ (first_fault peer_row text ≡ Some fault) }
{}
