//! The chart of one end.
ghost use Rattle.std.specs.Prelude.{◌≡◌, ◌+◌, ◌≤◌, ◌^◌, ◌++◌, OnOk};
ghost use Rattle.bridge_pictures.specs.Chart as spec;

use crate::svg::{Point, Snippet, cut, cut_mark, put_line, put_snippets, put_words};
use crate::windows::bars::{EDGE, packets_high, put_bar, put_downward, put_upward};
use seq_circle::NoMemory;
use std::alloc::Global;
use std::marker::Model;

// A chart has this much room above its tallest bar.
const ROOM: u64 = 14;

/// What an end's congestion control counts, in packets of data.
#[derive(Clone, Copy)]
pub(crate) struct Counts {
    pub(crate) window: u32,
    pub(crate) flight: u32,
}

/// The chart of one end while it is drawn.
#[derive(Drop)]
pub(crate) struct Chart {
    // The window that was drawn last, and the most packets that were drawn.
    shown: u32,
    tallest: u32,
    body: Vec<u8>,
}

impl Model for Chart {
    ghost use Rattle.bridge_pictures.specs.Chart.{ChartParts};

    ghost Value = { ChartParts };

    ghost view = { λ c. record { shown = c.shown; tallest = c.tallest; body = c.body.items } };
}

// Puts what a column shows: what happened, the window, and what is in flight.
#[tactic(auto, unfolding(crate::specs::Chart::column_words))]
fn put_column_words(text: &mut Vec<u8>, words: &[u8], counts: Counts) -> Result<(), NoMemory>
    ensures { OnOk result (text.new.items ≡ text.old.items ++ spec.column_words words.now counts) }
{
    put_snippets(
        text,
        &[
            Snippet::Plain(cut(words)),
            Snippet::Plain(cut_mark(words)),
            Snippet::Plain(b"\nwindow "),
            Snippet::Number(u64::from(counts.window)),
            Snippet::Plain(b" flight "),
            Snippet::Number(u64::from(counts.flight)),
        ],
    )
}

// Puts what a chart is called, and how many packets its tallest bar has.
#[tactic(auto, unfolding(crate::specs::Chart::panel_words))]
fn put_panel_words(text: &mut Vec<u8>, name: &[u8], tallest: u64) -> Result<(), NoMemory>
    ensures { OnOk result (text.new.items ≡ text.old.items ++ spec.panel_words name.now tallest) }
{
    put_snippets(
        text,
        &[
            Snippet::Plain(name),
            Snippet::Plain(b": packets of data, up to "),
            Snippet::Number(tallest),
        ],
    )
}

// Puts the line below the bars.
#[tactic(auto, unfolding(crate::specs::Chart::base))]
fn put_base(text: &mut Vec<u8>, bottom: u64, right: u64) -> Result<(), NoMemory>
    ensures { OnOk result (text.new.items ≡ text.old.items ++ spec.base bottom right) }
{
    let from = Point { x: EDGE, y: bottom };
    let to = Point {
        x: right,
        y: bottom,
    };
    put_line(text, b"base", from, to, b"no packets")
}

impl Chart {
    /// Before the first column.
    pub(crate) fn new(alloc: Global) -> Chart
        ensures { result ≡ spec.first_chart }
    {
        Chart {
            shown: 0,
            tallest: 0,
            body: Vec::new(alloc),
        }
    }

    // Draws the bars of a column with these words.
    #[tactic(auto, unfolding(crate::specs::Chart::bars))]
    fn put_bars(&mut self, column: u32, counts: Counts, words: &[u8]) -> Result<(), NoMemory>
        ensures { OnOk result (self.new ≡ spec.with_bars self.old column counts words.now) }
    {
        let flight = packets_high(counts.flight);
        let window = packets_high(counts.window);
        if counts.window < self.shown {
            let before = packets_high(self.shown);
            put_bar(&mut self.body, b"fell", column, 0, before, words)?;
        }
        put_bar(&mut self.body, b"flight", column, 0, flight, words)?;
        put_bar(&mut self.body, b"window", column, window, 2, words)
    }

    /// Draws a column: the window, what is in flight, and whether the window fell. NoMemory comes if no memory was
    /// left, here and below.
    #[tactic(auto, unfolding(crate::specs::Chart::column_drawn))]
    pub(crate) fn draw(
        &mut self,
        alloc: Global,
        column: u32,
        counts: Counts,
        words: &[u8],
    ) -> Result<(), NoMemory>
        ensures { OnOk result (self.new ≡ spec.column_drawn self.old column counts words.now) }
    {
        let mut title = Vec::new(alloc);
        put_column_words(&mut title, words, counts)?;
        self.put_bars(column, counts, &title)?;
        self.shown = counts.window;
        self.tallest = self.tallest.max(counts.window).max(counts.flight);
        Ok(())
    }

    /// How high the chart is.
    pub(crate) fn height(&self) -> u64
        ensures value { result ≡ spec.chart_high self.now }
        ensures low { result ≤ 2 ^ 36 + 14 }
    {
        packets_high(self.tallest) + ROOM
    }

    // Puts the bars, and below their line these marks.
    #[tactic(auto, unfolding(crate::specs::Chart::chart_body))]
    fn put_body(&self, text: &mut Vec<u8>, bottom: u64, marks: &[u8]) -> Result<(), NoMemory>
        ensures { OnOk result (text.new.items ≡ text.old.items ++ spec.chart_body self.now bottom marks.now) }
    {
        put_upward(text, bottom, &self.body)?;
        put_downward(text, bottom, marks)
    }

    // Puts what the chart is called.
    #[tactic(auto, unfolding(crate::specs::Chart::panel))]
    fn put_panel(
        &self,
        alloc: Global,
        text: &mut Vec<u8>,
        name: &[u8],
        top: u64,
    ) -> Result<(), NoMemory>
        ensures { OnOk result (text.new.items ≡ text.old.items ++ spec.panel self.now name.now top) }
    {
        let mut words = Vec::new(alloc);
        put_panel_words(&mut words, name, u64::from(self.tallest))?;
        put_words(text, b"panel", Point { x: EDGE, y: top }, &words)
    }

    /// Puts the chart between these heights and up to this distance from the left edge, with its name and its marks.
    #[tactic(auto, unfolding(crate::specs::Chart::chart))]
    pub(crate) fn put(
        &self,
        alloc: Global,
        text: &mut Vec<u8>,
        name: &[u8],
        span: Span,
        marks: &[u8],
    ) -> Result<(), NoMemory>
        ensures { OnOk result (text.new.items ≡ text.old.items ++ spec.chart self.now name.now span marks.now) }
    {
        self.put_panel(alloc, text, name, span.top)?;
        self.put_body(text, span.bottom, marks)?;
        put_base(text, span.bottom, span.right)
    }
}

/// Where a chart is: between these heights, and up to this distance from the left edge.
#[derive(Clone, Copy)]
pub(crate) struct Span {
    pub(crate) top: u64,
    pub(crate) bottom: u64,
    pub(crate) right: u64,
}
