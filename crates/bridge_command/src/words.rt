//! What the words after the program's name ask for.
ghost use Rattle.std.specs.Prelude.{◌≡◌, IfOk, IfSome, IsOk, false};
ghost use Rattle.bridge_command.specs.Words.{IsBridgeFormWithinBounds, asked_flow, asked_form, asked_json, asked_picture, asked_seed, asked_seeds, flow_picture, form_after, joined_picture, has_bridge_settings, has_settings_after, stands_alone};

use seq_circle::NoMemory;
use std::alloc::Global;
use tool_forms::{FlowSide, SeedRange, SeedRun, flow_side_of, is_word, seed_range_of, seed_run_of};
use tool_text::{is_text, number_up_to};

/// A job of the second tool (own).
#[derive(Clone, Copy)]
pub enum BridgeForm {
    /// `capture` makes a capture of the frames that `run` or `replay` wrote.
    Capture,
    /// `unwrap` makes a capture of raw IP from one of another link type.
    Unwrap,
    /// `seed` makes a schedule from a campaign's seed.
    Seed(SeedRun),
    /// `seeds` makes an object of JSON for each seed of a campaign.
    Seeds(SeedRange),
    /// `frames` makes lines of `replay` from the packets of a flow that go to a side.
    Frames(FlowSide),
    /// `json` makes an object of JSON for each record of a capture, and `json --payload` includes the bytes of data.
    Json(bool),
    /// `ladder` draws what `run` or `replay` wrote, and `windows` draws a schedule.
    Picture(Picture),
    /// `ladder --flow F` and `windows --flow F` draw the flow of this number of a capture, from 1.
    FlowPicture(Picture, u64),
}

/// What a picture shows (own).
#[derive(Clone, Copy)]
pub enum Picture {
    /// The packets between both ends.
    Ladder,
    /// The windows of both ends.
    Windows,
}

// A flow and its number as one word.
const FLOW: &[u8] = b"--flow=";

/// The line that answers words that are none of the forms (own). It names all forms.
pub const USAGE: &[u8] =
    b"usage: dccp_bridge capture | unwrap | seed --seed S --events E | seeds --first F --seeds N --events E | frames --flow F --side server|client | json [--payload] | ladder [--flow F] | windows [--flow F]\n";

// No word may follow.
fn stands_alone(form: BridgeForm, words: &[String]) -> Option<BridgeForm>
    requires { IsBridgeFormWithinBounds form }
    ensures value { result ≡ stands_alone form words.now }
    ensures within { IfSome result IsBridgeFormWithinBounds }
{
    if words.is_empty() { Some(form) } else { None }
}

// The job that the words after `seed` ask for.
fn asked_seed(alloc: Global, words: &[String]) -> Result<Option<BridgeForm>, NoMemory>
    ensures value { IfOk result (λ form. form ≡ asked_seed words.now) }
    ensures within { IfOk result (λ form. IfSome form IsBridgeFormWithinBounds) }
{
    match seed_run_of(alloc, words)? {
        Some(run) => Ok(Some(BridgeForm::Seed(run))),
        None => Ok(None),
    }
}

// The job that the words after `seeds` ask for.
fn asked_seeds(alloc: Global, words: &[String]) -> Result<Option<BridgeForm>, NoMemory>
    ensures value { IfOk result (λ form. form ≡ asked_seeds words.now) }
    ensures within { IfOk result (λ form. IfSome form IsBridgeFormWithinBounds) }
{
    match seed_range_of(alloc, words)? {
        Some(range) => Ok(Some(BridgeForm::Seeds(range))),
        None => Ok(None),
    }
}

// The job that the words after `frames` ask for.
fn asked_flow(alloc: Global, words: &[String]) -> Result<Option<BridgeForm>, NoMemory>
    ensures value { IfOk result (λ form. form ≡ asked_flow words.now) }
    ensures within { IfOk result (λ form. IfSome form IsBridgeFormWithinBounds) }
{
    match flow_side_of(alloc, words)? {
        Some(asked) => Ok(Some(BridgeForm::Frames(asked))),
        None => Ok(None),
    }
}

// The job that the words after `json` ask for.
fn asked_json(words: &[String]) -> Option<BridgeForm>
    ensures value { result ≡ asked_json words.now }
    ensures within { IfSome result IsBridgeFormWithinBounds }
{
    match words {
        [] => Some(BridgeForm::Json(false)),
        [word] if is_word(word, b"--payload") => Some(BridgeForm::Json(true)),
        _ => None,
    }
}

// The picture of the flow whose number this text is, from 1.
fn flow_picture(picture: Picture, text: &[u8]) -> Option<BridgeForm>
    ensures value { result ≡ flow_picture picture text.now }
    ensures within { IfSome result IsBridgeFormWithinBounds }
{
    let flow = number_up_to(u64::MAX, text)?;
    if flow == 0 {
        return None;
    }
    Some(BridgeForm::FlowPicture(picture, flow))
}

// The picture of the flow in one word, `--flow=F`.
fn joined_picture(picture: Picture, word: &[u8]) -> Option<BridgeForm>
    ensures value { result ≡ joined_picture picture word.now }
    ensures within { IfSome result IsBridgeFormWithinBounds }
{
    if word.len() < FLOW.len() || !is_text(&word[..FLOW.len()], FLOW) {
        return None;
    }
    flow_picture(picture, &word[FLOW.len()..])
}

// The job that the words after `ladder` or `windows` ask for.
fn asked_picture(picture: Picture, words: &[String]) -> Option<BridgeForm>
    ensures value { result ≡ asked_picture picture words.now }
    ensures within { IfSome result IsBridgeFormWithinBounds }
{
    match words {
        [] => Some(BridgeForm::Picture(picture)),
        [word] => joined_picture(picture, word.as_bytes()),
        [name, flow] if is_word(name, b"--flow") => flow_picture(picture, flow.as_bytes()),
        _ => None,
    }
}

// The job that a first word and those after it ask for.
#[tactic(auto, unfolding(crate::specs::Words::form_after))]
fn form_after(
    alloc: Global,
    first: &String,
    words: &[String],
) -> Result<Option<BridgeForm>, NoMemory>
    ensures value { IfOk result (λ form. form ≡ form_after first.now words.now) }
    ensures within { IfOk result (λ form. IfSome form IsBridgeFormWithinBounds) }
    ensures memory { has_settings_after first.now ≡ false → IsOk result }
{
    if is_word(first, b"capture") {
        return Ok(stands_alone(BridgeForm::Capture, words));
    }
    if is_word(first, b"unwrap") {
        return Ok(stands_alone(BridgeForm::Unwrap, words));
    }
    if is_word(first, b"seed") {
        return asked_seed(alloc, words);
    }
    if is_word(first, b"seeds") {
        return asked_seeds(alloc, words);
    }
    if is_word(first, b"frames") {
        return asked_flow(alloc, words);
    }
    if is_word(first, b"json") {
        return Ok(asked_json(words));
    }
    if is_word(first, b"ladder") {
        return Ok(asked_picture(Picture::Ladder, words));
    }
    if is_word(first, b"windows") {
        return Ok(asked_picture(Picture::Windows, words));
    }
    Ok(None)
}

/// The job that the words after the program's name ask for, or None if they are none of the forms (own). NoMemory comes
/// only for words after `seed`, `seeds` and `frames`, whose settings are read by a command of `clap`; it says nothing
/// about the words.
pub fn form_of(alloc: Global, words: &[String]) -> Result<Option<BridgeForm>, NoMemory>
    ensures value { IfOk result (λ form. form ≡ asked_form words.now) }
    ensures within { IfOk result (λ form. IfSome form IsBridgeFormWithinBounds) }
    ensures memory { has_bridge_settings words.now ≡ false → IsOk result }
{
    match words {
        [first, words @ ..] => form_after(alloc, first, words),
        [] => Ok(None),
    }
}
