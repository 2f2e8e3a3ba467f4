//! The graph: a chart for each end over the same columns, and below them the values of features.
ghost use Rattle.std.specs.Prelude.{◌≡◌, ◌+◌, ◌≤◌, ◌^◌, ◌++◌, OnOk};
ghost use Rattle.bridge_pictures.specs.Graph as spec;

use crate::svg::{Point, put_front, put_words};
use crate::windows::bars::{EDGE, column_at, put_downward};
use crate::windows::chart::{Chart, Counts, Span};
use crate::windows::look::put_look;
use seq_circle::NoMemory;
use std::alloc::Global;
use std::marker::Model;
use tool_text::{put, put_number};

// The first chart begins this far from the top, and the second this far below the first.
const TOP: u64 = 60;

const BETWEEN: u64 = 60;

// How far below the second chart the numbers of the columns are, the heading of the notes, and the first note.
const NUMBERS: u64 = 26;

const HEADING: u64 = 60;

const NOTES: u64 = 82;

// A note has this height.
const NOTE: u64 = 18;

// The margins at the right and at the bottom, and the least width.
const RIGHT: u64 = 60;

const BOTTOM: u64 = 20;

const LEAST: u64 = 900;

// One column in this many is numbered.
const NUMBERED: u32 = 20;

/// A graph while it is drawn.
#[derive(Drop)]
pub(crate) struct Graph {
    alloc: Global,
    columns: u32,
    client: Chart,
    server: Chart,
    // The numbers of columns.
    axis: Vec<u8>,
    // How many notes there are, and their lines.
    notes: u32,
    told: Vec<u8>,
}

impl Model for Graph {
    ghost use Rattle.bridge_pictures.specs.Graph.{GraphParts};

    ghost Value = { GraphParts };

    ghost view = { λ g. record { columns = g.columns; client = g.client; server = g.server; axis = g.axis.items; notes = g.notes; told = g.told.items } };
}

// How far a note lies below the first.
fn note_at(notes: u32) -> u64
    ensures value { result ≡ spec.note_at notes }
    ensures low { result ≤ 2 ^ 37 }
{
    NOTE * u64::from(notes)
}

// Puts the number of a column below it.
#[tactic(auto, unfolding(crate::specs::Graph::column_number))]
fn put_column_number(alloc: Global, text: &mut Vec<u8>, column: u32) -> Result<(), NoMemory>
    ensures { OnOk result (text.new.items ≡ text.old.items ++ spec.column_number column) }
{
    let mut number = Vec::new(alloc);
    put_number(&mut number, u64::from(column))?;
    let at = Point {
        x: column_at(column),
        y: 0,
    };
    put_words(text, b"at", at, &number)
}

// Puts the number of a column that has one.
fn put_axis(alloc: Global, text: &mut Vec<u8>, column: u32) -> Result<(), NoMemory>
    ensures { OnOk result (text.new.items ≡ text.old.items ++ spec.axis_mark column) }
{
    if column % NUMBERED == 0 {
        return put_column_number(alloc, text, column);
    }
    Ok(())
}

impl Graph {
    /// Before the first column.
    pub(crate) fn new(alloc: Global) -> Graph
        ensures { result ≡ spec.first_graph }
    {
        Graph {
            alloc,
            columns: 0,
            client: Chart::new(alloc),
            server: Chart::new(alloc),
            axis: Vec::new(alloc),
            notes: 0,
            told: Vec::new(alloc),
        }
    }

    /// How many columns there are.
    pub(crate) fn columns(&self) -> u32
        ensures { result ≡ self.now.columns }
    {
        self.columns
    }

    /// Draws a column: what both ends count after this happened. NoMemory means that no memory was left, here and
    /// below.
    #[tactic(auto, unfolding(crate::specs::Graph::counts_drawn))]
    pub(crate) fn draw(
        &mut self,
        client: Counts,
        server: Counts,
        words: &[u8],
    ) -> Result<(), NoMemory>
        ensures { OnOk result (self.new ≡ spec.counts_drawn self.old client server words.now) }
    {
        self.columns = self.columns.saturating_add(1);
        self.client.draw(self.alloc, self.columns, client, words)?;
        self.server.draw(self.alloc, self.columns, server, words)?;
        put_axis(self.alloc, &mut self.axis, self.columns)
    }

    /// Notes a line below the charts.
    #[tactic(auto, unfolding(crate::specs::Graph::noted_below))]
    pub(crate) fn note(&mut self, words: &[u8]) -> Result<(), NoMemory>
        ensures { OnOk result (self.new ≡ spec.noted_below self.old words.now) }
    {
        let at = Point {
            x: EDGE,
            y: note_at(self.notes),
        };
        put_words(&mut self.told, b"note", at, words)?;
        self.notes = self.notes.saturating_add(1);
        Ok(())
    }

    // Where the line of the client's chart is.
    fn client_bottom(&self) -> u64
        ensures value { result ≡ spec.client_bottom self.now }
        ensures low { result ≤ 2 ^ 37 }
    {
        TOP + self.client.height()
    }

    // Where the line of the server's chart is.
    fn server_bottom(&self) -> u64
        ensures value { result ≡ spec.server_bottom self.now }
        ensures low { result ≤ 2 ^ 38 }
    {
        self.client_bottom() + BETWEEN + self.server.height()
    }

    // How far the columns go to the right.
    fn right(&self) -> u64
        ensures value { result ≡ spec.right_of self.now }
        ensures low { result ≤ 2 ^ 36 + 6 }
    {
        column_at(self.columns.saturating_add(1))
    }

    // The size of the picture.
    fn size(&self) -> Point
        ensures { result ≡ spec.graph_size self.now }
    {
        Point {
            x: LEAST.max(self.right() + RIGHT),
            y: self.server_bottom() + NOTES + note_at(self.notes) + BOTTOM,
        }
    }

    // Puts the client's chart.
    #[tactic(auto, unfolding(crate::specs::Graph::client_chart))]
    fn put_client(&self, text: &mut Vec<u8>, marks: &[u8]) -> Result<(), NoMemory>
        ensures { OnOk result (text.new.items ≡ text.old.items ++ spec.client_chart self.now marks.now) }
    {
        let span = Span {
            top: TOP,
            bottom: self.client_bottom(),
            right: self.right(),
        };
        self.client.put(self.alloc, text, b"client", span, marks)
    }

    // Puts the server's chart.
    #[tactic(auto, unfolding(crate::specs::Graph::server_chart))]
    fn put_server(&self, text: &mut Vec<u8>, marks: &[u8]) -> Result<(), NoMemory>
        ensures { OnOk result (text.new.items ≡ text.old.items ++ spec.server_chart self.now marks.now) }
    {
        let span = Span {
            top: self.client_bottom() + BETWEEN,
            bottom: self.server_bottom(),
            right: self.right(),
        };
        self.server.put(self.alloc, text, b"server", span, marks)
    }

    // Puts the numbers of columns.
    #[tactic(auto, unfolding(crate::specs::Graph::columns_numbered))]
    fn put_numbers(&self, text: &mut Vec<u8>) -> Result<(), NoMemory>
        ensures { OnOk result (text.new.items ≡ text.old.items ++ spec.columns_numbered self.now) }
    {
        put_downward(text, self.server_bottom() + NUMBERS, &self.axis)
    }

    // Puts the notes, under their heading.
    #[tactic(auto, unfolding(crate::specs::Graph::notes_told))]
    fn put_notes(&self, text: &mut Vec<u8>, heading: &[u8]) -> Result<(), NoMemory>
        ensures { OnOk result (text.new.items ≡ text.old.items ++ spec.notes_told self.now heading.now) }
    {
        let at = Point {
            x: EDGE,
            y: self.server_bottom() + HEADING,
        };
        put_words(text, b"panel", at, heading)?;
        put_downward(text, self.server_bottom() + NOTES, &self.told)
    }

    /// Puts the picture: both charts with these marks below their lines, and below them the notes under this heading.
    #[tactic(auto, unfolding(crate::specs::Graph::graph_picture))]
    pub(crate) fn put_picture(
        &self,
        text: &mut Vec<u8>,
        heading: &[u8],
        client: &[u8],
        server: &[u8],
    ) -> Result<(), NoMemory>
        ensures { OnOk result (text.new.items ≡ text.old.items ++ spec.graph_picture self.now heading.now client.now server.now) }
    {
        put_front(text, self.size())?;
        put_look(text)?;
        self.put_client(text, client)?;
        self.put_server(text, server)?;
        self.put_numbers(text)?;
        self.put_notes(text, heading)?;
        put(text, b"</svg>\n")
    }
}
