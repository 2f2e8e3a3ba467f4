//! The settings that words give to a form.
//!
//! One table has the settings of `replay`, `campaign` and `listen`, and those of the second program's `seed`, `seeds`
//! and `frames`: the form of each, its name, how it is given, and the bounds of its number. A further setting is a line
//! in each function of the table.
ghost use Rattle.std.specs.Prelude.{◌≡◌, ◌≤◌, IfSome};
ghost use Rattle.tool_forms.specs.Settings.{bare_name, least, most, number_for, settings_of, side_in, way_of};

use tool_text::{is_text, number_up_to};
use world_events::Side;

/// The side that a text names.
pub(crate) fn side_in(text: &[u8]) -> Option<Side>
    ensures { result ≡ side_in text.now }
{
    if is_text(text, b"server") {
        return Some(Side::Server);
    }
    if is_text(text, b"client") {
        return Some(Side::Client);
    }
    None
}

/// A form that has settings.
#[derive(Clone, Copy)]
pub(crate) enum Table {
    Replay,
    Campaign,
    Listen,
    Seed,
    Seeds,
    Frames,
}

/// A setting that words can give.
#[derive(Clone, Copy)]
pub(crate) enum Setting {
    First,
    Seeds,
    Events,
    Workers,
    Side,
    Plain,
    Buffer,
    Most,
    Seed,
    Flow,
}

/// How a setting is given.
#[derive(Clone, Copy)]
pub(crate) enum Way {
    /// With a value, and it has to be given.
    Needed,
    /// With a value, and it may be left out.
    Chosen,
    /// By only its name, and it may be left out.
    Mark,
}

impl Table {
    /// The settings of the form.
    pub(crate) fn settings(self) -> &'static [Setting]
        ensures { result.now ≡ settings_of self }
    {
        match self {
            Table::Replay => &[Setting::Side, Setting::Buffer, Setting::Plain],
            Table::Campaign => &[
                Setting::First,
                Setting::Seeds,
                Setting::Events,
                Setting::Workers,
            ],
            Table::Listen => &[Setting::Most],
            Table::Seed => &[Setting::Seed, Setting::Events],
            Table::Seeds => &[Setting::First, Setting::Seeds, Setting::Events],
            Table::Frames => &[Setting::Flow, Setting::Side],
        }
    }
}

impl Setting {
    fn least(self) -> u64
        ensures { result ≡ least self }
    {
        match self {
            Setting::Seeds
            | Setting::Events
            | Setting::Workers
            | Setting::Buffer
            | Setting::Most
            | Setting::Flow => 1,
            Setting::First | Setting::Side | Setting::Plain | Setting::Seed => 0,
        }
    }

    fn most(self) -> u64
        ensures { result ≡ most self }
    {
        match self {
            Setting::First | Setting::Seed | Setting::Flow => u64::MAX,
            Setting::Seeds => 100_000,
            Setting::Events => 4_096,
            Setting::Workers => 16,
            Setting::Buffer | Setting::Most => 1_024,
            Setting::Side | Setting::Plain => 0,
        }
    }

    /// The setting's name, without the two hyphens.
    pub(crate) fn name(self) -> &'static str
        ensures { result.now ≡ bare_name self }
    {
        match self {
            Setting::First => "first",
            Setting::Seeds => "seeds",
            Setting::Events => "events",
            Setting::Workers => "workers",
            Setting::Side => "side",
            Setting::Plain => "plain",
            Setting::Buffer => "buffer",
            Setting::Most => "most",
            Setting::Seed => "seed",
            Setting::Flow => "flow",
        }
    }

    /// How the setting is given.
    pub(crate) fn way(self) -> Way
        ensures { result ≡ way_of self }
    {
        match self {
            Setting::Plain => Way::Mark,
            Setting::Buffer => Way::Chosen,
            Setting::First
            | Setting::Seeds
            | Setting::Events
            | Setting::Workers
            | Setting::Side
            | Setting::Most
            | Setting::Seed
            | Setting::Flow => Way::Needed,
        }
    }

    /// The number that this text says, within the setting's bounds.
    pub(crate) fn number(self, text: &[u8]) -> Option<u64>
        ensures value { result ≡ number_for self text.now }
        ensures within { IfSome result (λ n. least self ≤ n × n ≤ most self) }
    {
        let number = number_up_to(self.most(), text)?;
        if number < self.least() {
            return None;
        }
        Some(number)
    }
}
