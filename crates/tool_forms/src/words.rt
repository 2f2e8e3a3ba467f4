//! What the words after the program's name ask for.
ghost use Rattle.std.specs.Prelude.{◌≡◌, ◌∷◌, IfOk, IfSome, IsOk, false};
ghost use Rattle.clap.specs.Words.{found_of, rows_of};
ghost use Rattle.tool_forms.specs.Commands.{listen_in, replay_in};
ghost use Rattle.tool_forms.specs.Words.{IsFormWithinBounds, WordsSay, campaigns, form_of, has_settings, is_word, listen_of, replay_of, takes_no_word};

use crate::campaign_words::{Campaign, campaign_of};
use crate::commands::{chosen_in, figure_in, is_given, read, text_in};
use crate::settings::{Setting, Table, side_in};
use clap::ArgMatches;
use seq_circle::NoMemory;
use std::alloc::Global;
use tool_text::is_text;
use world_events::Side;

/// A job of the tool (own).
#[derive(Clone, Copy)]
pub enum Form {
    /// `run` plays a schedule.
    Run,
    /// `replay` hands frames to the usual end of this side, with or without its offers.
    Replay {
        /// Whose end it is.
        side: Side,
        /// Whether it offers nothing (`--plain`).
        plain: bool,
    },
    /// `replay` with `--buffer` hands them to one with a receive buffer for this many packets: 1 to 1,024.
    Buffered {
        /// Whose end it is.
        side: Side,
        /// Whether it offers nothing (`--plain`).
        plain: bool,
        /// How many packets the buffer holds.
        capacity: u16,
    },
    /// `campaign` runs seeds and counts.
    Campaign(Campaign),
    /// `show` prints the packets of a capture.
    Show,
    /// `listen` hands what many peers send to one listener, which has at most this many flows: 1 to 1,024.
    Listen {
        /// The most flows.
        most: u16,
    },
    /// `ecn` plays events between an ECN-capable sender and an ECN-capable receiver.
    Ecn,
}

/// The line that answers words which are none of the forms (own). It names all forms.
pub const USAGE: &[u8] =
    b"usage: dccp run | replay --side server|client [--plain] [--buffer C] | campaign --first F --seeds N --events E --workers W | show | listen --most M | ecn\n";

/// Whether a word is this text (own).
pub fn is_word(word: &String, text: &[u8]) -> bool
    ensures { result ≡ is_word word.now text.now }
{
    is_text(word.as_bytes(), text)
}

// The replay that the matches ask for.
fn replay_in(matches: &ArgMatches) -> Option<Form>
    ensures value { result ≡ replay_in (rows_of (found_of matches.now)) }
    ensures within { IfSome result IsFormWithinBounds }
{
    let text = text_in(matches, Setting::Side)?;
    let side = side_in(text.as_bytes())?;
    let plain = is_given(matches, Setting::Plain);
    let form = match chosen_in(matches, Setting::Buffer)? {
        None => Form::Replay { side, plain },
        Some(capacity) => Form::Buffered {
            side,
            plain,
            capacity: capacity as u16,
        },
    };
    Some(form)
}

// The job that the words after `replay` ask for.
fn replay_of(alloc: Global, words: &[String]) -> Result<Option<Form>, NoMemory>
    ensures value { WordsSay result (replay_of words.now) }
    ensures within { IfOk result (λ form. IfSome form IsFormWithinBounds) }
{
    match read(alloc, Table::Replay, words)? {
        Some(matches) => Ok(replay_in(&matches)),
        None => Ok(None),
    }
}

// No word may follow.
fn takes_no_word(form: Form, words: &[String]) -> Option<Form>
    requires { IsFormWithinBounds form }
    ensures value { result ≡ takes_no_word form words.now }
    ensures within { IfSome result IsFormWithinBounds }
{
    if words.is_empty() { Some(form) } else { None }
}

// The job that the words after `campaign` ask for.
fn campaigns(alloc: Global, words: &[String]) -> Result<Option<Form>, NoMemory>
    ensures value { WordsSay result (campaigns words.now) }
    ensures within { IfOk result (λ form. IfSome form IsFormWithinBounds) }
{
    match campaign_of(alloc, words)? {
        Some(campaign) => Ok(Some(Form::Campaign(campaign))),
        None => Ok(None),
    }
}

// The listener that the matches ask for.
fn listen_in(matches: &ArgMatches) -> Option<Form>
    ensures value { result ≡ listen_in (rows_of (found_of matches.now)) }
    ensures within { IfSome result IsFormWithinBounds }
{
    let most = figure_in(matches, Setting::Most)?;
    Some(Form::Listen { most: most as u16 })
}

// The job that the words after `listen` ask for.
fn listen_of(alloc: Global, words: &[String]) -> Result<Option<Form>, NoMemory>
    ensures value { WordsSay result (listen_of words.now) }
    ensures within { IfOk result (λ form. IfSome form IsFormWithinBounds) }
{
    match read(alloc, Table::Listen, words)? {
        Some(matches) => Ok(listen_in(&matches)),
        None => Ok(None),
    }
}

// The job that this word and those after it ask for.
#[tactic(auto, unfolding(crate::specs::Words::form_of))]
fn form_after(alloc: Global, first: &String, words: &[String]) -> Result<Option<Form>, NoMemory>
    ensures value { IfOk result (λ form. form ≡ form_of (first.now ∷ words.now)) }
    ensures within { IfOk result (λ form. IfSome form IsFormWithinBounds) }
    ensures memory { has_settings (first.now ∷ words.now) ≡ false → IsOk result }
{
    if is_word(first, b"run") {
        return Ok(takes_no_word(Form::Run, words));
    }
    if is_word(first, b"replay") {
        return replay_of(alloc, words);
    }
    if is_word(first, b"campaign") {
        return campaigns(alloc, words);
    }
    if is_word(first, b"show") {
        return Ok(takes_no_word(Form::Show, words));
    }
    if is_word(first, b"listen") {
        return listen_of(alloc, words);
    }
    if is_word(first, b"ecn") {
        return Ok(takes_no_word(Form::Ecn, words));
    }
    Ok(None)
}

/// The job that the words after the program's name ask for, or None if they are none of the forms (own). NoMemory comes
/// only for words after `replay`, `campaign` and `listen`, whose settings a command of `clap` reads, and says nothing
/// about them.
#[tactic(auto, unfolding(crate::specs::Words::form_of))]
pub fn form_of(alloc: Global, words: &[String]) -> Result<Option<Form>, NoMemory>
    ensures value { WordsSay result (form_of words.now) }
    ensures within { IfOk result (λ form. IfSome form IsFormWithinBounds) }
    ensures memory { has_settings words.now ≡ false → IsOk result }
{
    match words {
        [first, words @ ..] => form_after(alloc, first, words),
        [] => Ok(None),
    }
}
