//! The elements of a picture.
ghost use Rattle.std.specs.Prelude.{◌≡◌, ◌++◌, OnOk};
ghost use Rattle.bridge_pictures.specs.Svg as spec;

use seq_circle::NoMemory;
use tool_text::{put, put_number};

/// A place of a picture: how far it is from the left edge and from the top.
#[derive(Clone, Copy)]
pub(crate) struct Point {
    pub(crate) x: u64,
    pub(crate) y: u64,
}

// A text of more bytes is cut to its first bytes, and marked; its tooltip has all.
const LABEL: usize = 60;

const FRONT: usize = 58;

// A byte of text, or what XML writes for one that it reserves.
fn put_escaped_byte(text: &mut Vec<u8>, byte: u8) -> Result<(), NoMemory>
    ensures { OnOk result (text.new.items ≡ text.old.items ++ spec.escaped_byte byte) }
{
    if byte == b'<' {
        return put(text, b"&lt;");
    }
    if byte == b'&' {
        return put(text, b"&amp;");
    }
    put(text, &[byte])
}

// Puts a text between tags.
fn put_escaped(text: &mut Vec<u8>, words: &[u8]) -> Result<(), NoMemory>
    ensures { OnOk result (text.new.items ≡ text.old.items ++ spec.escaped words.now) }
{
    for byte in words {
        put_escaped_byte(text, *byte)?;
    }
    Ok(())
}

/// A snippet of a picture's text.
#[derive(Clone, Copy)]
pub(crate) enum Snippet<'a> {
    /// Bytes as they are.
    Plain(&'a [u8]),
    /// Bytes as XML has them between tags.
    Escaped(&'a [u8]),
    /// A number in decimal.
    Number(u64),
}

fn put_snippet(text: &mut Vec<u8>, snippet: Snippet<'_>) -> Result<(), NoMemory>
    ensures { OnOk result (text.new.items ≡ text.old.items ++ spec.snippet_text snippet.entry) }
{
    match snippet {
        Snippet::Plain(words) => put(text, words),
        Snippet::Escaped(words) => put_escaped(text, words),
        Snippet::Number(number) => put_number(text, number),
    }
}

/// Puts snippets, one after the other. NoMemory comes if no memory was left, here and below.
pub(crate) fn put_snippets(text: &mut Vec<u8>, snippets: &[Snippet<'_>]) -> Result<(), NoMemory>
    ensures { OnOk result (text.new.items ≡ text.old.items ++ spec.snippets_text snippets.now) }
{
    for snippet in snippets {
        put_snippet(text, *snippet)?;
    }
    Ok(())
}

/// The part of a text that a picture has.
#[tactic(auto, unfolding(crate::specs::Svg::label_front))]
pub(crate) fn cut(words: &[u8]) -> &[u8]
    ensures { result.now ≡ spec.label_front words.now }
{
    if LABEL < words.len() {
        return &words[..words.len().min(FRONT)];
    }
    words
}

/// The mark after a text that is cut.
#[tactic(auto, unfolding(crate::specs::Svg::cut_mark))]
pub(crate) fn cut_mark(words: &[u8]) -> &'static [u8]
    ensures { result.now ≡ spec.cut_mark words.now }
{
    if LABEL < words.len() {
        return b"..";
    }
    b""
}

/// Puts a text at that place, which is cut; its tooltip has the whole.
#[tactic(auto, unfolding(crate::specs::Svg::label))]
pub(crate) fn put_label<'a>(
    text: &mut Vec<u8>,
    class: &'a [u8],
    at: Point,
    words: &'a [u8],
) -> Result<(), NoMemory>
    ensures { OnOk result (text.new.items ≡ text.old.items ++ spec.label class.now at words.now) }
{
    put_snippets(
        text,
        &[
            Snippet::Plain(b"<text class='"),
            Snippet::Plain(class),
            Snippet::Plain(b"' x='"),
            Snippet::Number(at.x),
            Snippet::Plain(b"' y='"),
            Snippet::Number(at.y),
            Snippet::Plain(b"'>"),
            Snippet::Escaped(cut(words)),
            Snippet::Plain(cut_mark(words)),
            Snippet::Plain(b"<title>"),
            Snippet::Escaped(words),
            Snippet::Plain(b"</title></text>\n"),
        ],
    )
}

/// Puts a whole text at that place, without a tooltip.
#[tactic(auto, unfolding(crate::specs::Svg::words))]
pub(crate) fn put_words<'a>(
    text: &mut Vec<u8>,
    class: &'a [u8],
    at: Point,
    words: &'a [u8],
) -> Result<(), NoMemory>
    ensures { OnOk result (text.new.items ≡ text.old.items ++ spec.words class.now at words.now) }
{
    put_snippets(
        text,
        &[
            Snippet::Plain(b"<text class='"),
            Snippet::Plain(class),
            Snippet::Plain(b"' x='"),
            Snippet::Number(at.x),
            Snippet::Plain(b"' y='"),
            Snippet::Number(at.y),
            Snippet::Plain(b"'>"),
            Snippet::Escaped(words),
            Snippet::Plain(b"</text>\n"),
        ],
    )
}

/// Puts a line between two places, with a tooltip. The style says what its class looks like.
#[tactic(auto, unfolding(crate::specs::Svg::line))]
pub(crate) fn put_line<'a>(
    text: &mut Vec<u8>,
    class: &'a [u8],
    from: Point,
    to: Point,
    words: &'a [u8],
) -> Result<(), NoMemory>
    ensures { OnOk result (text.new.items ≡ text.old.items ++ spec.line class.now from to words.now) }
{
    put_snippets(
        text,
        &[
            Snippet::Plain(b"<line class='"),
            Snippet::Plain(class),
            Snippet::Plain(b"' x1='"),
            Snippet::Number(from.x),
            Snippet::Plain(b"' y1='"),
            Snippet::Number(from.y),
            Snippet::Plain(b"' x2='"),
            Snippet::Number(to.x),
            Snippet::Plain(b"' y2='"),
            Snippet::Number(to.y),
            Snippet::Plain(b"'><title>"),
            Snippet::Escaped(words),
            Snippet::Plain(b"</title></line>\n"),
        ],
    )
}

/// Puts the first line of a picture of this size: its width and its height, also as the view box.
#[tactic(auto, unfolding(crate::specs::Svg::front))]
pub(crate) fn put_front(text: &mut Vec<u8>, size: Point) -> Result<(), NoMemory>
    ensures { OnOk result (text.new.items ≡ text.old.items ++ spec.front size) }
{
    put_snippets(
        text,
        &[
            Snippet::Plain(b"<svg xmlns='http://www.w3.org/2000/svg' version='1.1' width='"),
            Snippet::Number(size.x),
            Snippet::Plain(b"' height='"),
            Snippet::Number(size.y),
            Snippet::Plain(b"' viewBox='0 0 "),
            Snippet::Number(size.x),
            Snippet::Plain(b" "),
            Snippet::Number(size.y),
            Snippet::Plain(b"'>\n"),
        ],
    )
}
