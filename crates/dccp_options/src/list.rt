//! The options of a packet, one after another.
ghost use Rattle.std.specs.Prelude.{◌≡◌, ◌≤◌, length};
ghost use Rattle.dccp_options.specs.Grammar.{options_of};

use crate::cursor::Cursor;
use crate::option::{Opt, OptFault};
use std::marker::Model;

/// The options of an area that are still to come: an iterator. Contracts see the list of its items.
#[derive(Clone, Debug, Drop)]
pub struct OptList<'a> {
    cursor: Cursor<'a>,
}

impl<'a> Model for OptList<'a> {
    ghost use Rattle.std.specs.Prelude.{List, Result, false};
    ghost use Rattle.dccp_options.specs.declared.option.OptFault.{OptFault};
    ghost use Rattle.dccp_options.specs.Grammar.{Entry};
    ghost use Rattle.dccp_options.specs.Left.{entries_left};

    ghost Value = { List (Result Entry OptFault) };

    ghost view = { λ list. entries_left false list.cursor };
}

impl<'a> OptList<'a> {
    ghost use Rattle.std.specs.Prelude.{false};
    ghost use Rattle.dccp_options.specs.Left.{entries_left};

    /// A copy of the options that are still to come, for a reader that goes over them many times, since a list is not
    /// `Copy`.
    pub fn again(&self) -> OptList<'a>
        ensures { result ≡ self.now }
    {
        OptList {
            cursor: self.cursor,
        }
    }

    /// The list's place in the area.
    pub(crate) fn cursor(self) -> Cursor<'a>
        ensures { entries_left false result ≡ self.entry }
    {
        self.cursor
    }
}

impl<'a> Iterator for OptList<'a> {
    ghost use Rattle.std.specs.Iterator.{YieldsFirstBy, item_count};
    ghost use Rattle.dccp_options.specs.Left.{item_of};

    type Item = Result<Opt<'a>, OptFault>;

    ghost next_gives = { YieldsFirstBy item_of (λ list. list) };

    ghost remaining = { item_count (λ list. list) };

    fn next(&mut self) -> Option<Result<Opt<'a>, OptFault>> {
        self.cursor.next_item()
    }
}

/// The options of an area of at most 1,008 bytes, in their order, without Padding (RFC 4340, section 5.8). On a Data
/// packet those that Data packets ignore are left out too, Mandatory among them. A fault is the last item; an option
/// whose length is below 2 or beyond the area ends the list without one.
pub fn options(area: &[u8], on_data: bool) -> OptList<'_>
    requires { length area.now ≤ 1008 }
    ensures { result ≡ options_of area.now on_data }
{
    OptList {
        cursor: Cursor::new(area, on_data),
    }
}
