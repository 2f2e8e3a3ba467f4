//! Options as text (RFC 4340, section 5.8; the text is own).
//!
//! An option's text depends only on its type, whatever its length, except for a Change or Confirm without a feature's
//! number.
#![tactic(auto, using(tool_text::proofs::Keeping::keeps_itself, tool_text::proofs::Keeping::keeps_on))]

ghost use Rattle.std.specs.Prelude.{◌≡◌, ◌≤◌, ◌++◌, length, OnOk};
ghost use Rattle.dccp_options.specs.Grammar.{options_of};
ghost use Rattle.dccp_options.specs.Left.{item_of};
ghost use Rattle.tool_text.specs.Text.{Keeps};
ghost use Rattle.packet_show.specs.Text.{numbered_text, feature_text, option_text, mark_text, item_text, options_text};

use crate::names::{OptionForm, option_form, option_name};
use dccp_options::{Opt, OptFault, options};
use seq_circle::NoMemory;
use tool_text::{put, put_counted, put_hex_or_dash};

// Puts a name, a number and the data.
fn put_numbered(text: &mut Vec<u8>, name: &[u8], number: u8, body: &[u8]) -> Result<(), NoMemory>
    ensures ok { OnOk result (text.new.items ≡ text.old.items ++ numbered_text name.now number body.now) }
    ensures front { Keeps text.old.items text.new.items }
{
    put(text, name)?;
    put_counted(text, b" ", u64::from(number))?;
    put(text, b" ")?;
    put_hex_or_dash(text, body)
}

// Puts a Change or Confirm by its feature; without a feature's number it has no name.
fn put_feature(text: &mut Vec<u8>, kind: u8, body: &[u8]) -> Result<(), NoMemory>
    ensures ok { OnOk result (text.new.items ≡ text.old.items ++ feature_text kind body.now) }
    ensures front { Keeps text.old.items text.new.items }
{
    match body {
        [] => put_numbered(text, b"option", kind, body),
        [feature, rest @ ..] => put_numbered(text, option_name(kind).as_bytes(), *feature, rest),
    }
}

/// Puts an option (own): its name by its type (RFC 4340, section 5.8), and what it carries, bytes in hexadecimal.
/// NoMemory comes if the text could not grow; then a prefix of the option may be there.
pub fn put_option(text: &mut Vec<u8>, kind: u8, body: &[u8]) -> Result<(), NoMemory>
    ensures ok { OnOk result (text.new.items ≡ text.old.items ++ option_text kind body.now) }
    ensures front { Keeps text.old.items text.new.items }
{
    let name = option_name(kind).as_bytes();
    match option_form(kind) {
        OptionForm::Bare => put(text, name),
        OptionForm::Data => {
            put(text, name)?;
            put(text, b" ")?;
            put_hex_or_dash(text, body)
        }
        OptionForm::Feature => put_feature(text, kind, body),
        OptionForm::Numbered => put_numbered(text, name, kind, body),
    }
}

/// Puts the word in front of an option that is marked with Mandatory (RFC 4340, section 5.8.2), and nothing for
/// another. NoMemory comes if the text could not grow.
pub fn put_mark(text: &mut Vec<u8>, mandatory: bool) -> Result<(), NoMemory>
    ensures ok { OnOk result (text.new.items ≡ text.old.items ++ mark_text mandatory) }
    ensures front { Keeps text.old.items text.new.items }
{
    if mandatory {
        return put(text, b"mandatory ");
    }
    put(text, b"")
}

fn put_item(text: &mut Vec<u8>, item: &Result<Opt<'_>, OptFault>) -> Result<(), NoMemory>
    ensures ok { OnOk result (text.new.items ≡ text.old.items ++ item_text (item_of item.now)) }
    ensures front { Keeps text.old.items text.new.items }
{
    match item {
        Ok(option) => {
            put(text, b" [")?;
            put_mark(text, option.mandatory)?;
            put_option(text, option.kind, option.body)?;
            put(text, b"]")
        }
        Err(_) => put(text, b" [mandatory fault]"),
    }
}

/// Puts the options of an area, each in brackets; on a Data packet without those that it ignores.
#[tactic(auto, using(tool_text::proofs::Keeping::keeps_itself, tool_text::proofs::Keeping::keeps_on, tool_text::proofs::Keeping::keeps_more, tool_text::proofs::Keeping::keeps_through))]
pub(crate) fn put_options(text: &mut Vec<u8>, area: &[u8], on_data: bool) -> Result<(), NoMemory>
    requires { length area.now ≤ 1008 }
    ensures ok { OnOk result (text.new.items ≡ text.old.items ++ options_text (options_of area.now on_data)) }
    ensures front { Keeps text.old.items text.new.items }
{
    for item in options(area, on_data) {
        put_item(text, &item)?;
    }
    Ok(())
}
