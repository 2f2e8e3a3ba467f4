//! The first words of lines.
ghost use Rattle.tool_jobs.specs.Forms.{ecn_form_name, ecn_forms};
ghost use Rattle.tool_text.specs.Kinds.{named_in};

use tool_text::{Name, is_text};

/// A line's form, by its first word (own).
#[derive(Clone, Copy)]
pub(crate) enum EcnForm {
    Send,
    Deliver,
    Mark,
    Report,
    Check,
    Forge,
}

impl Name for EcnForm {
    ghost named = { named_in ecn_form_name ecn_forms };

    fn of_name(word: &[u8]) -> Option<EcnForm> {
        if is_text(word, b"send") {
            Some(EcnForm::Send)
        } else if is_text(word, b"deliver") {
            Some(EcnForm::Deliver)
        } else if is_text(word, b"mark") {
            Some(EcnForm::Mark)
        } else if is_text(word, b"report") {
            Some(EcnForm::Report)
        } else if is_text(word, b"check") {
            Some(EcnForm::Check)
        } else if is_text(word, b"forge") {
            Some(EcnForm::Forge)
        } else {
            None
        }
    }
}
