//! The words of a form, read by a command of `clap`.
ghost use Rattle.std.specs.Prelude.{◌≡◌, ◌≤◌, ◌↔◌, IfOk, IfSome, IsTrue, false, true, option_map};
ghost use Rattle.clap.specs.Words.{app_of, first_of, found_of, is_simple_and_free, kind_of, rows_of, rule_of, with_rule};
ghost use Rattle.tool_forms.specs.Commands.{IsReadBy, bare_command, chosen_in, command_of, figure_in, has_dashes, is_yes, rule_by, rule_for, with_settings};
ghost use Rattle.tool_forms.specs.Settings.{bare_name, least, most};

use crate::settings::{Setting, Table, Way};
use clap::error::ErrorKind;
use clap::{Arg, ArgAction, ArgMatches, Command, Error};
use seq_circle::NoMemory;
use std::alloc::{AllocError, Global};
use tool_text::is_text;

// The argument with this name, given in this way.
fn argument<'a>(alloc: Global, way: Way, name: &'a str) -> Arg<'a>
    ensures rule { rule_of result ≡ rule_by way name.entry.now }
    ensures local { result.global ≡ false }
{
    let named = Arg::new(alloc, name).long(name);
    match way {
        Way::Needed => named.required(true).action(ArgAction::Set),
        Way::Chosen => named.action(ArgAction::Set),
        Way::Mark => named.action(ArgAction::SetTrue),
    }
}

fn with_argument<'a>(
    alloc: Global,
    command: Command<'a>,
    way: Way,
    name: &'a str,
) -> Result<Command<'a>, AllocError>
    ensures { IfOk result (λ c. app_of c ≡ with_rule (app_of command.entry) (rule_by way name.entry.now)) }
{
    command.arg(argument(alloc, way, name))
}

fn with_setting<'a>(
    alloc: Global,
    command: Command<'a>,
    setting: Setting,
) -> Result<Command<'a>, AllocError>
    ensures { IfOk result (λ c. app_of c ≡ with_rule (app_of command.entry) (rule_for setting)) }
{
    with_argument(alloc, command, setting.way(), setting.name())
}

// A command that reads all its words as arguments.
fn bare_command<'a>(alloc: Global) -> Command<'a>
    ensures { app_of result ≡ bare_command }
{
    Command::new(alloc, "dccp")
        .no_binary_name(true)
        .disable_help_flag(true)
}

// The command with the arguments of these settings added.
fn with_settings<'a>(
    alloc: Global,
    command: Command<'a>,
    settings: &[Setting],
) -> Result<Command<'a>, AllocError>
    ensures { IfOk result (λ c. app_of c ≡ with_settings (app_of command.entry) settings.now) }
{
    match settings {
        [] => Ok(command),
        [setting, settings @ ..] => {
            let command = with_setting(alloc, command, *setting)?;
            with_settings(alloc, command, settings)
        }
    }
}

// The command that reads the words of a form.
fn command_of<'a>(alloc: Global, table: Table) -> Result<Command<'a>, AllocError>
    ensures { IfOk result (λ c. app_of c ≡ command_of table) }
{
    with_settings(alloc, bare_command(alloc), table.settings())
}

// Whether one of the words is `--`, which `clap` would take as the last word.
fn has_dashes(words: &[String]) -> bool
    ensures { result ≡ has_dashes words.now }
{
    words.iter().any(|word| is_text(word.as_bytes(), b"--"))
}

// Whether no memory was left; the words may be right.
fn is_for_memory(error: &Error) -> bool
    ensures { IsTrue result ↔ (kind_of error.now ≡ ErrorKind.OutOfMemory) }
{
    matches!(error.kind(), ErrorKind::OutOfMemory)
}

// The matches of a command for these words, or None if they are not its words.
fn read_by<'a>(
    command: Command<'a>,
    words: &'a [String],
) -> Result<Option<ArgMatches<'a>>, NoMemory>
    requires simple { is_simple_and_free (app_of command) ≡ true }
    ensures { IfOk result (IsReadBy (app_of command.entry) words.entry.now) }
{
    if has_dashes(words) {
        return Ok(None);
    }
    let error = match command.try_get_matches_from(words) {
        Ok(matches) => return Ok(Some(matches)),
        Err(error) => error,
    };
    if is_for_memory(&error) {
        Err(NoMemory)
    } else {
        Ok(None)
    }
}

/// What the words of a form give to its settings, or None if they are not its words.
pub(crate) fn read<'a>(
    alloc: Global,
    table: Table,
    words: &'a [String],
) -> Result<Option<ArgMatches<'a>>, NoMemory>
    ensures { IfOk result (IsReadBy (command_of table) words.entry.now) }
{
    let command = command_of(alloc, table)?;
    read_by(command, words)
}

/// The text that the matches have for this setting.
pub(crate) fn text_in<'a>(matches: &ArgMatches<'a>, setting: Setting) -> Option<&'a str>
    ensures { option_map (λ s. s.now) result ≡ first_of (bare_name setting) (rows_of (found_of matches.now)) }
{
    matches.get_str(setting.name())
}

/// The number that the matches have for this setting, within its bounds.
pub(crate) fn figure_in(matches: &ArgMatches, setting: Setting) -> Option<u64>
    ensures value { result ≡ figure_in setting (rows_of (found_of matches.now)) }
    ensures within { IfSome result (λ n. least setting ≤ n × n ≤ most setting) }
{
    let text = text_in(matches, setting)?;
    setting.number(text.as_bytes())
}

/// The number that the matches have for this setting, which may be left out; None if its text is no number within its
/// bounds.
pub(crate) fn chosen_in(matches: &ArgMatches, setting: Setting) -> Option<Option<u64>>
    ensures value { result ≡ chosen_in setting (rows_of (found_of matches.now)) }
    ensures within { IfSome result (λ chosen. IfSome chosen (λ n. least setting ≤ n × n ≤ most setting)) }
{
    let Some(text) = text_in(matches, setting) else {
        return Some(None);
    };
    let number = setting.number(text.as_bytes())?;
    Some(Some(number))
}

/// Whether a flag is given, which then has the text `true`.
pub(crate) fn is_given(matches: &ArgMatches, flag: Setting) -> bool
    ensures { result ≡ is_yes (first_of (bare_name flag) (rows_of (found_of matches.now))) }
{
    match text_in(matches, flag) {
        Some(text) => is_text(text.as_bytes(), b"true"),
        None => false,
    }
}
