//! What is kept of an end of a schedule while its windows are drawn.
ghost use Rattle.std.specs.Prelude.{◌≡◌, ◌++◌, OnOk};
ghost use Rattle.bridge_pictures.specs.Trace as spec;

use crate::svg::{Snippet, put_snippets};
use crate::windows::bars::put_bar;
use crate::windows::chart::Counts;
use crate::windows::graph::Graph;
use ccid_two::Kinds;
use dccp_endpoint::Endpoint;
use schedule_text::side_name;
use seq_circle::{NoMemory, Seq48};
use std::alloc::Global;
use std::marker::Model;
use tool_jobs::put_end_rows;
use tool_text::is_text;
use two_ends::{SentFrame, World};
use world_events::Side;

/// A frame that an end sent: in which column, and its number.
#[derive(Clone, Copy)]
pub(crate) struct Departure {
    pub(crate) column: u32,
    pub(crate) number: Seq48,
}

/// What is kept of an end: the values of its features that were written last, and the frames that it sent.
#[derive(Drop)]
pub(crate) struct Trace {
    rows: Vec<u8>,
    sent: Vec<Departure>,
}

impl Model for Trace {
    ghost use Rattle.bridge_pictures.specs.Trace.{TraceParts};

    ghost Value = { TraceParts };

    ghost view = { λ w. record { rows = w.rows.items; sent = w.sent.items } };
}

/// What an end's congestion control counts.
pub(crate) fn counts_of(end: &Endpoint<Kinds>) -> Counts
    ensures { result ≡ spec.counts_of end.now }
{
    Counts {
        window: end.window(),
        flight: end.in_flight(),
    }
}

// Puts the values of an end's features, under the number of a column.
#[tactic(auto, unfolding(crate::specs::Trace::rows_note))]
fn put_rows_note(text: &mut Vec<u8>, column: u32, side: Side, rows: &[u8]) -> Result<(), NoMemory>
    ensures { OnOk result (text.new.items ≡ text.old.items ++ spec.rows_note column side rows.now) }
{
    put_snippets(
        text,
        &[
            Snippet::Number(u64::from(column)),
            Snippet::Plain(b" "),
            Snippet::Plain(side_name(side)),
            Snippet::Plain(rows),
        ],
    )
}

// Puts the mark of a frame that was never processed.
fn put_loss(text: &mut Vec<u8>, processed: &[u64], sent: &Departure) -> Result<(), NoMemory>
    ensures { OnOk result (text.new.items ≡ text.old.items ++ spec.loss_mark processed.now sent.now) }
{
    if processed.contains(&sent.number.get()) {
        return Ok(());
    }
    put_bar(text, b"lost", sent.column, 3, 6, b"never processed")
}

impl Trace {
    /// Before the first event.
    pub(crate) fn new(alloc: Global) -> Trace
        ensures { result ≡ spec.first_trace }
    {
        Trace {
            rows: Vec::new(alloc),
            sent: Vec::new(alloc),
        }
    }

    // Notes the frame that the end sent last, if it is a further one.
    fn note_frame(&mut self, column: u32, frames: &[SentFrame]) -> Result<(), NoMemory>
        ensures { OnOk result (self.new ≡ spec.frame_noted self.old column frames.now) }
    {
        let Some(frame) = frames.get(self.sent.len()) else {
            return Ok(());
        };
        self.sent.push(Departure {
            column,
            number: frame.number,
        })?;
        Ok(())
    }

    // Notes the values of the end's features, and writes them below the charts if they changed.
    #[tactic(auto, unfolding(crate::specs::Trace::rows_told, crate::specs::Trace::rows_kept))]
    fn tell_rows(
        &mut self,
        alloc: Global,
        graph: &mut Graph,
        side: Side,
        rows: Vec<u8>,
    ) -> Result<(), NoMemory>
        ensures graph { OnOk result (graph.new ≡ spec.rows_told graph.old self.old side rows.items) }
        ensures next { OnOk result (self.new ≡ spec.rows_kept self.old rows.items) }
    {
        if is_text(&rows, &self.rows) {
            return Ok(());
        }
        let mut words = Vec::new(alloc);
        put_rows_note(&mut words, graph.columns(), side, &rows)?;
        graph.note(&words)?;
        self.rows = rows;
        Ok(())
    }

    /// Notes what an end has sent and holds by the last column. NoMemory comes if no memory was left, here and below.
    #[tactic(auto, unfolding(crate::specs::Trace::end_told, crate::specs::Trace::end_watched))]
    pub(crate) fn watch(
        &mut self,
        alloc: Global,
        graph: &mut Graph,
        side: Side,
        world: &World<Kinds>,
    ) -> Result<(), NoMemory>
        ensures graph { OnOk result (graph.new ≡ spec.end_told graph.old self.old side world.now) }
        ensures next { OnOk result (self.new ≡ spec.end_watched self.old graph.old.columns side world.now) }
    {
        self.note_frame(graph.columns(), world.frames(side))?;
        let mut rows = Vec::new(alloc);
        put_end_rows(&mut rows, world.end(side))?;
        self.tell_rows(alloc, graph, side, rows)
    }

    /// Puts the marks of the frames that the other end never processed.
    #[tactic(auto, unfolding(crate::specs::Trace::loss_marks))]
    pub(crate) fn put_losses(&self, text: &mut Vec<u8>, processed: &[u64]) -> Result<(), NoMemory>
        ensures { OnOk result (text.new.items ≡ text.old.items ++ spec.loss_marks self.now processed.now) }
    {
        for sent in &self.sent {
            put_loss(text, processed, sent)?;
        }
        Ok(())
    }
}
