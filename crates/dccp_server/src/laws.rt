//! What the definitions of the calls mean.
ghost use Rattle.dccp_server.specs.Ending.{EachMayStay, ListenerTicksEnd, NoneIsPassedOver};
ghost use Rattle.dccp_server.specs.FlowInboxes.{InboxesStayFew};
ghost use Rattle.dccp_server.specs.Meeting.{MeetingsAreDeeds};
ghost use Rattle.server_peers.specs.Places.{WalksNameEachOnce};
ghost use Rattle.dccp_server.specs.Rooms.{ForgottenHaveNone, LivesChangeNothing, RulesAreDeeds};
ghost use Rattle.dccp_server.specs.Serving.{CallsAreARun, CallsWantNoMemory, OnlyStrangersWantMemory, RefusedCallsChangeNothing, UpkeepsStandWithFlows};
ghost use Rattle.dccp_server.specs.Timing.{FlowsAreTimedEnds, ListenersKeepFlows};

/// If there is memory, what is done with a listener is a run of it, with any times and rules of paths. So each peer is
/// answered by the chain of its own calls (`each_peer_has_its_own_chain` of dccp_listener; own).
pub fn calls_are_a_run()
    ensures { CallsAreARun }
{}

/// After any deeds, something is kept exactly for the peers that have a flow. So only a datagram of a peer without a
/// flow can fail for lack of memory, and no call or tick (own).
pub fn only_strangers_want_memory()
    ensures kept { UpkeepsStandWithFlows }
    ensures memory { OnlyStrangersWantMemory }
    ensures calls { CallsWantNoMemory }
{}

/// After any deeds, a call that a peer's end refuses, or of a peer that has no end, changes nothing: no flow, no timer
/// and nothing that is known of a path (own).
pub fn refused_calls_change_nothing()
    ensures { RefusedCallsChangeNothing }
{}

/// After any deeds, the ticks of a listener at one time end: after thirteen for each flow nothing is due (own).
pub fn ticks_of_a_listener_end()
    ensures { ListenerTicksEnd }
{}

/// No flow is passed over, whatever is kept for the peers. If there is nothing to do, nothing is due at any flow, and
/// each may stay in its phase. Something is due as soon as the wait that was returned has passed, and not before (own).
pub fn no_flow_is_passed_over()
    ensures due { NoneIsPassedOver }
    ensures stays { EachMayStay }
{}

/// Whatever is known of a flow and its path, each datagram, call, timer and rule leaves the end, the timers and the path
/// that it leaves of a single end with its timers (`TimedEnd` of dccp_uses). After any deeds, that is what a listener then
/// has of the peer (own).
pub fn flows_are_timed_ends()
    ensures alike { FlowsAreTimedEnds }
    ensures kept { ListenersKeepFlows }
{}

/// Whatever the rules, the effect of a datagram is that of a list of deeds, and the lives of flows do not change them.
/// So each peer is still answered by the chain of its own deeds (`calls_are_a_run`; own).
pub fn rules_are_deeds()
    ensures rules { RulesAreDeeds }
    ensures lives { LivesChangeNothing }
{}

/// Whatever kind a datagram is, and however cookies are used, a server that meets it leaves the listener, and what is
/// kept of its flows, as a list of deeds does. So `calls_are_a_run` holds of it, too (own).
pub fn meetings_are_deeds()
    ensures { MeetingsAreDeeds }
{}

/// After any deeds, a peer whose flow is forgotten has none, whatever phase it was in (own).
pub fn forgotten_peers_have_no_flow()
    ensures { ForgottenHaveNone }
{}

/// There are no more inboxes than are allowed, whatever arrives, is read, stopped or forgotten (own).
pub fn inboxes_stay_few()
    ensures { InboxesStayFew }
{}

/// A walk from the first peer to the one after it, and so on, names each peer that has a flow once, in their order, and
/// ends (own).
pub fn walks_name_each_peer_once()
    ensures { WalksNameEachOnce }
{}
