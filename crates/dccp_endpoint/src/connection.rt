//! The end without its congestion control.
ghost use Rattle.std.specs.Prelude.{◌≡◌};
ghost use Rattle.dccp_endpoint.specs.End.{end_of, first_phase, with_widths};

use crate::Config;
use crate::config::number as seq48;
use ack_vectors::Received;
use dccp_states::{Phase, Role};
use feature_lists::{Feature, Place, initial};
use feature_machine::{Negotiation, Role2};
use seq_circle::{NoMemory, Seq48};
use std::alloc::Global;
use std::marker::Model;
use validity_windows::Marks;

mod calling;
mod classes;
mod early;
mod handing;
mod receiving;
mod replying;
mod sending;

pub use calling::{MOST_DATA_BYTES, applies_in};
pub(crate) use classes::{is_live, is_open};
pub(crate) use early::is_part_open;
pub use handing::reported_from;

// The end to which the rows of the negotiation belong.
fn end_of(role: Role) -> Role2
    ensures { result ≡ end_of role }
{
    match role {
        Role::Client => Role2::Client,
        Role::Server => Role2::Server,
    }
}

// Where each role begins (RFC 4340, section 8.1).
fn first_phase(role: Role) -> Phase
    ensures { result ≡ first_phase role }
{
    match role {
        Role::Client => Phase::Closed,
        Role::Server => Phase::Listen,
    }
}

// The windows are as wide as the rows say.
fn fit(marks: &mut Marks, rows: &Negotiation)
    ensures { marks.new ≡ with_widths marks.old rows.now }
{
    marks.own_w = rows.held(Feature::SequenceWindow, Place::Here).value;
    marks.peer_w = rows.held(Feature::SequenceWindow, Place::There).value;
}

/// One end of a connection without its congestion control, which is lent to it when something is due to that. Its calls
/// are those of `Endpoint`, which reads its fields.
#[derive(Drop)]
pub(crate) struct Connection {
    pub(crate) config: Config,
    pub(crate) phase: Phase,
    opened: bool,
    pub(crate) marks: Marks,
    pub(crate) received: Received,
    pub(crate) rows: Negotiation,
    pub(crate) marked: u64,
    owed: bool,
    unacked: u16,
    pub(crate) last: Seq48,
}

impl Model for Connection {
    ghost use Rattle.dccp_endpoint.specs.End.{EndState, IsProper};

    ghost Value = { EndState };

    ghost view = { λ e. record { config = e.config; phase = e.phase; opened = e.opened; marks = e.marks; rows = e.rows; received = e.received; marked = e.marked; owed = e.owed; unacked = e.unacked; last = e.last } };

    ghost invariant = { λ e. IsProper (record { config = e.config; phase = e.phase; opened = e.opened; marks = e.marks; rows = e.rows; received = e.received; marked = e.marked; owed = e.owed; unacked = e.unacked; last = e.last }) };
}

impl Connection {
    ghost use Rattle.std.specs.Prelude.{◌≡◌, IfOk};
    ghost use Rattle.dccp_endpoint.specs.End.{EndState, new_end, with_rows};
    ghost use Rattle.feature_machine.specs.Negotiating.{AreRowsOf};

    /// An end of this configuration: CLOSED for a client, LISTEN for a server (RFC 4340, section 8.1).
    #[inline(always)]
    pub(crate) fn new(alloc: Global, config: Config) -> Result<Connection, NoMemory>
        ensures { IfOk result (λ e. e ≡ new_end config) }
    {
        config.shows_lists();
        let phase = first_phase(config.role);
        let marks = Marks::new(config.iss, initial(Feature::SequenceWindow));
        let rows = Negotiation::new(end_of(config.role), &config.lists);
        let received = Received::new(alloc)?;
        let last = seq48(0);
        Ok(Connection {
            config,
            phase,
            opened: false,
            marks,
            rows,
            received,
            marked: 0,
            owed: false,
            unacked: 0,
            last,
        })
    }

    // The rows: they are of the end's role, and the windows are as wide as they say.
    fn rows(&self) -> &Negotiation
        ensures value { result.now ≡ self.now.rows }
        ensures role { AreRowsOf (end_of self.now.config.role) self.now.rows }
        ensures widths { with_rows self.now self.now.rows ≡ self.now }
    {
        &self.rows
    }
}
