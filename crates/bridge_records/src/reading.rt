//! How the pieces of a capture are read.
ghost use Rattle.std.specs.Prelude.{◌≡◌, ◌≤◌, ◌%◌, length, slice_get, Some, None, Ok};
ghost use Rattle.bridge_records.specs.Blocks.{block_order, section_order};
ghost use Rattle.capture_reader.specs.Records.{record_header};
ghost use Rattle.bridge_records.specs.Reading as spec;
ghost use Rattle.bridge_records.specs.Reading.{ReadsOrLacks, ReadsPiece, file_judged, first_file};

use crate::blocks::{
    BlockHead, ENHANCED, INTERFACE, MOST_BLOCK, PACKET, SECTION, SIMPLE, block_head, block_order,
    ends_block, is_passed_over, is_read_block, is_section_version, length_fault, section_order,
};
use crate::content::Content;
use crate::interfaces::{Interface, front_of, interface_of, needs_nanos};
use crate::links::{classic_format, is_known_link};
use crate::packets::{enhanced_head, simple_head};
use crate::pieces::{PieceError, PieceFault};
use crate::skips::Skips;
use capture_reader::{Format, MOST_CAPTURED, Order, RecordHeader};
use std::alloc::Global;
use std::marker::Model;

// The most interfaces of a section that are kept.
const MOST_INTERFACES: usize = 256;

// The length of a block without a body.
const EMPTY: u32 = 12;

/// Which piece of a capture comes next.
#[derive(Clone, Copy)]
pub(crate) enum FilePlace {
    /// The file header of a classic capture, or the first 24 bytes of a pcapng file.
    Start,
    /// The header of a record.
    Header(Format),
    /// The bytes of a record, which this header has: 1 to 262,144.
    Body(Format, RecordHeader),
    /// The rest of the file's first block, which has this many bytes: 28 to 524,288.
    Section(Order, u32),
    /// The first twelve bytes of a block.
    Block(Order),
    /// The rest of a block, whose length is 16 to 524,288.
    Rest(Order, BlockHead),
    /// The last bytes of a block of this length that is skipped, this many: whole words of four.
    Passing(Order, u32, u32),
}

/// A capture while it is read, piece by piece. Contracts see which piece comes next, the interfaces of the
/// section, what is known of fractions, and what was skipped.
#[derive(Drop)]
pub(crate) struct CaptureFile {
    place: FilePlace,
    interfaces: Vec<Interface>,
    nanos: Option<bool>,
    skips: Skips,
}

impl Model for CaptureFile {
    ghost use Rattle.bridge_records.specs.Reading.{FileState, FitsPlace};

    ghost Value = { FileState };

    ghost view = { λ f. record { place = f.place; interfaces = f.interfaces.items; nanos = f.nanos; skips = f.skips } };

    ghost invariant = { λ f. FitsPlace f.place };
}

/// What a piece holds, if anything, or why the capture is refused at it.
pub(crate) type Answer = Result<Option<Content>, PieceFault>;

impl CaptureFile {
    /// Before the first piece. It takes no memory.
    pub(crate) fn new(alloc: Global) -> CaptureFile
        ensures { result ≡ first_file }
    {
        CaptureFile {
            place: FilePlace::Start,
            interfaces: Vec::new(alloc),
            nanos: None,
            skips: Skips::none(),
        }
    }

    /// How many bytes the next piece has.
    pub(crate) fn wanted(&self) -> usize
        ensures value { result ≡ spec.next_length self.now.place }
        ensures some { 1 ≤ result }
        ensures fits { result ≤ 524288 }
    {
        match self.place {
            FilePlace::Start => 24,
            FilePlace::Header(_) => 16,
            FilePlace::Body(_, head) => head.captured as usize,
            FilePlace::Section(_, total) => total as usize - 24,
            FilePlace::Block(_) => EMPTY as usize,
            FilePlace::Rest(_, head) => (head.total - EMPTY) as usize,
            FilePlace::Passing(_, _, left) => left.min(MOST_BLOCK) as usize,
        }
    }

    /// Whether the capture may end before the next piece.
    pub(crate) fn may_end(&self) -> bool
        ensures { result ≡ spec.is_between self.now.place }
    {
        matches!(self.place, FilePlace::Header(_) | FilePlace::Block(_))
    }

    /// Whether blocks were read and none of them was an interface, which would say whether fractions are nanoseconds.
    pub(crate) fn is_untold(&self) -> bool
        ensures { result ≡ spec.is_untold self.now }
    {
        matches!(self.place, FilePlace::Block(_)) && self.nanos.is_none()
    }

    /// Reads the next piece, and returns what it holds, if it holds anything. A piece that is refused changes nothing.
    /// NoMemory means that no memory was left for an interface.
    pub(crate) fn read(&mut self, piece: &[u8]) -> Result<Option<Content>, PieceError>
        requires { length piece.now ≡ spec.next_length self.old.place }
        ensures { ReadsOrLacks (file_judged self.old piece.now) piece.now self.old self.new result }
    {
        match self.place {
            FilePlace::Start => Ok(self.begin(piece)?),
            FilePlace::Header(format) => Ok(self.read_header(format, piece)?),
            FilePlace::Body(format, head) => Ok(self.end_record(format, head)?),
            FilePlace::Section(order, total) => Ok(self.end_section(order, total, piece)?),
            FilePlace::Block(order) => Ok(self.begin_block(order, piece)?),
            FilePlace::Rest(order, head) => self.end_block(order, head, piece),
            FilePlace::Passing(order, total, left) => Ok(self.pass_over(
                order, total, left, piece,
            )?),
        }
    }

    /// What was skipped so far.
    pub(crate) fn skips(&self) -> Skips
        ensures { result ≡ self.now.skips }
    {
        self.skips
    }

    // One packet more of this link type.
    fn note_link(&mut self, link: u32)
        ensures { self.new ≡ spec.link_noted self.old link }
    {
        if !is_known_link(link) {
            self.skips.links = self.skips.links.one_more(link);
        }
    }

    // One packet more that is too long.
    fn note_long(&mut self, size: u32)
        ensures { self.new ≡ spec.long_noted self.old size }
    {
        self.skips.long = self.skips.long.one_more(size);
    }

    // One block more that is not read.
    fn note_block(&mut self, kind: u32)
        ensures { self.new ≡ spec.block_noted self.old kind }
    {
        self.skips.blocks = self.skips.blocks.one_more(kind);
    }

    // A block that is skipped piece by piece.
    fn note_passing(&mut self, head: &BlockHead)
        ensures { self.new ≡ spec.passing_noted self.old head.now }
    {
        if is_read_block(head.kind) {
            self.note_long(head.total);
        } else {
            self.note_block(head.kind);
        }
    }

    // The first bytes of a file.
    fn begin(&mut self, piece: &[u8]) -> Answer
        requires { length piece.now ≡ 24 }
        ensures { ReadsPiece (spec.by_start self.old piece.now) piece.now self.old self.new result }
    {
        if Order::Big.read_u32(piece, 0) == SECTION {
            return self.begin_section(piece);
        }
        let format = classic_format(piece)?;
        self.place = FilePlace::Header(format);
        Ok(Some(Content::Begins(format.nanos)))
    }

    // The first bytes of the first section.
    fn begin_section(&mut self, piece: &[u8]) -> Answer
        requires { length piece.now ≡ 24 }
        ensures { ReadsPiece (spec.by_section self.old piece.now (section_order piece.now)) piece.now self.old self.new result }
    {
        let Some(order) = section_order(piece) else {
            return Err(PieceFault::BadMagic);
        };
        let total = order.read_u32(piece, 4);
        if let Some(fault) = length_fault(28, total) {
            return Err(fault);
        }
        if !is_section_version(order, 12, piece) {
            return Err(PieceFault::BadVersion);
        }
        self.place = FilePlace::Section(order, total);
        Ok(None)
    }

    // A record's header.
    fn read_header(&mut self, format: Format, piece: &[u8]) -> Answer
        requires { length piece.now ≡ 16 }
        ensures { ReadsPiece (spec.by_header self.old format (record_header format.order piece.now)) piece.now self.old self.new result }
    {
        let head = RecordHeader::read(format.order, piece);
        if MOST_CAPTURED < head.captured as usize {
            return Err(PieceFault::TooLong);
        }
        if head.captured == 0 {
            return self.end_record(format, head);
        }
        self.place = FilePlace::Body(format, head);
        Ok(None)
    }

    // The bytes of a record.
    fn end_record(&mut self, format: Format, head: RecordHeader) -> Answer
        ensures at { self.new ≡ spec.at self.old (FilePlace.Header format) }
        ensures found { result ≡ Ok (Some (Content.Holds format.link head 0)) }
    {
        self.place = FilePlace::Header(format);
        Ok(Some(Content::Holds(format.link, head, 0)))
    }

    // The rest of the file's first block.
    fn end_section(&mut self, order: Order, total: u32, piece: &[u8]) -> Answer
        requires { 4 ≤ length piece.now }
        ensures { ReadsPiece (spec.by_section_end self.old order total piece.now) piece.now self.old self.new result }
    {
        if !ends_block(order, total, piece) {
            return Err(PieceFault::BadBlock);
        }
        self.place = FilePlace::Block(order);
        Ok(None)
    }

    // The first bytes of a block.
    fn begin_block(&mut self, order: Order, piece: &[u8]) -> Answer
        requires { length piece.now ≡ 12 }
        ensures { ReadsPiece (spec.by_block self.old piece.now (block_order order piece.now)) piece.now self.old self.new result }
    {
        let Some(order) = block_order(order, piece) else {
            return Err(PieceFault::BadBlock);
        };
        let head = block_head(order, piece);
        if is_passed_over(&head) {
            self.note_passing(&head);
            self.place = FilePlace::Passing(order, head.total, head.total - EMPTY);
            return Ok(None);
        }
        if let Some(fault) = length_fault(EMPTY, head.total) {
            return Err(fault);
        }
        if head.total != EMPTY {
            self.place = FilePlace::Rest(order, head);
            return Ok(None);
        }
        if is_read_block(head.kind) || head.first != EMPTY {
            return Err(PieceFault::BadBlock);
        }
        self.note_block(head.kind);
        self.place = FilePlace::Block(order);
        Ok(None)
    }

    // A piece of a block that is skipped.
    fn pass_over(&mut self, order: Order, total: u32, left: u32, piece: &[u8]) -> Answer
        requires least { 4 ≤ length piece.now }
        requires words { left % 4 ≡ 0 }
        ensures { ReadsPiece (spec.by_passing self.old order total left piece.now) piece.now self.old self.new result }
    {
        if MOST_BLOCK < left {
            self.place = FilePlace::Passing(order, total, left - MOST_BLOCK);
            return Ok(None);
        }
        if !ends_block(order, total, piece) {
            return Err(PieceFault::BadBlock);
        }
        self.place = FilePlace::Block(order);
        Ok(None)
    }

    // The rest of a block.
    fn end_block(
        &mut self,
        order: Order,
        head: BlockHead,
        piece: &[u8],
    ) -> Result<Option<Content>, PieceError>
        requires least { 4 ≤ length piece.now }
        requires most { length piece.now ≤ 524288 }
        ensures { ReadsOrLacks (spec.by_rest self.old order head piece.now) piece.now self.old self.new result }
    {
        if !ends_block(order, head.total, piece) {
            return Err(PieceError::Refused(PieceFault::BadBlock));
        }
        match head.kind {
            SECTION => Ok(self.next_section(order, piece)?),
            INTERFACE => self.add_interface(order, head.first, piece),
            SIMPLE => Ok(self.simple(order, head.first, piece)?),
            ENHANCED => Ok(self.enhanced(order, head.first, piece)?),
            PACKET => Ok(self.enhanced(order, front_of(order, head.first), piece)?),
            _ => {
                self.note_block(head.kind);
                self.place = FilePlace::Block(order);
                Ok(None)
            }
        }
    }

    // The rest of a further section's first block.
    fn next_section(&mut self, order: Order, piece: &[u8]) -> Answer
        ensures { ReadsPiece (spec.by_new_section self.old order piece.now) piece.now self.old self.new result }
    {
        if piece.len() < 16 {
            return Err(PieceFault::BadBlock);
        }
        if !is_section_version(order, 0, piece) {
            return Err(PieceFault::BadVersion);
        }
        self.interfaces.clear();
        self.place = FilePlace::Block(order);
        Ok(None)
    }

    // The first interface of a file begins the capture.
    fn begin_capture(&mut self, interface: &Interface) -> Option<Content>
        ensures found { result ≡ spec.begun_capture self.old.nanos interface.now }
        ensures told { self.new ≡ record self.old { nanos = Some (spec.begun_nanos self.old.nanos interface.now) } }
    {
        if self.nanos.is_some() {
            return None;
        }
        let nanos = needs_nanos(interface.resolution);
        self.nanos = Some(nanos);
        Some(Content::Begins(nanos))
    }

    // The rest of an interface's block.
    fn add_interface(
        &mut self,
        order: Order,
        first: u32,
        piece: &[u8],
    ) -> Result<Option<Content>, PieceError>
        requires { length piece.now ≤ 524288 }
        ensures { ReadsOrLacks (spec.by_interface_block self.old order first piece.now) piece.now self.old self.new result }
    {
        if MOST_INTERFACES <= self.interfaces.len() {
            self.place = FilePlace::Block(order);
            return Ok(None);
        }
        let interface = interface_of(order, first, piece)?;
        if self.interfaces.push(interface).is_err() {
            return Err(PieceError::NoMemory);
        }
        self.place = FilePlace::Block(order);
        Ok(self.begin_capture(&interface))
    }

    // The interface of this number in the section.
    fn interface(&self, number: usize) -> Option<Interface>
        ensures { result ≡ slice_get self.now.interfaces number }
    {
        self.interfaces.get(number).copied()
    }

    // Fractions are nanoseconds.
    fn is_nanos(&self) -> bool
        ensures { result ≡ spec.is_nanos self.now.nanos }
    {
        matches!(self.nanos, Some(true))
    }

    // A packet whose bytes begin at this place in the rest of its block.
    fn packet(
        &mut self,
        order: Order,
        link: u32,
        head: RecordHeader,
        start: usize,
        piece: &[u8],
    ) -> Answer
        requires { start ≤ 16 }
        ensures { ReadsPiece (spec.by_packet self.old order link head start piece.now) piece.now self.old self.new result }
    {
        if piece.len() < start + head.captured as usize + 4 {
            return Err(PieceFault::BadBlock);
        }
        self.place = FilePlace::Block(order);
        if MOST_CAPTURED < head.captured as usize {
            self.note_long(head.captured);
            return Ok(None);
        }
        self.note_link(link);
        Ok(Some(Content::Holds(link, head, start)))
    }

    // The rest of the block of a packet of this interface.
    fn enhanced(&mut self, order: Order, number: u32, piece: &[u8]) -> Answer
        ensures { ReadsPiece (spec.by_enhanced self.old order piece.now (slice_get self.old.interfaces number)) piece.now self.old self.new result }
    {
        let Some(interface) = self.interface(number as usize) else {
            return Err(PieceFault::BadBlock);
        };
        if piece.len() < 20 {
            return Err(PieceFault::BadBlock);
        }
        let Some(head) = enhanced_head(&interface, self.is_nanos(), order, piece) else {
            return Err(PieceFault::BadBlock);
        };
        self.packet(order, interface.link, head, 16, piece)
    }

    // The rest of the block of a packet without a time, of this length.
    fn simple(&mut self, order: Order, original: u32, piece: &[u8]) -> Answer
        ensures { ReadsPiece (spec.by_simple self.old order original piece.now (slice_get self.old.interfaces 0)) piece.now self.old self.new result }
    {
        let Some(interface) = self.interface(0) else {
            return Err(PieceFault::BadBlock);
        };
        let head = simple_head(interface.most, original);
        self.packet(order, interface.link, head, 0, piece)
    }
}
