//! A picture of one flow of a capture: a job over its records.
ghost use Rattle.std.specs.Prelude.{◌≡◌, ◌≤◌, ◌++◌, length, OnOk};
ghost use Rattle.capture_reader.specs.Records.{entry_of};
ghost use Rattle.packet_show.specs.Lines.{parts_by};
ghost use Rattle.packet_show.specs.Network.{carried_by};
ghost use Rattle.bridge_pictures.specs.FlowPictures as spec;
ghost use Rattle.bridge_pictures.specs.FlowPictures.{PictureKind};

use crate::walk::{FlowStep, Walk, record_of_ip};
use bridge_links::ip_packet;
use bridge_records::{PieceFault, RecordJob};
use capture_reader::Record;
use dccp_packets::{Packet, decode};
use packet_show::{Datagram, carried};
use seq_circle::NoMemory;
use std::alloc::Global;
use std::marker::Model;

/// A picture of the packets of a flow.
pub(crate) trait FlowPicture {
    // What the picture is after one more packet, and its text.
    ghost kind: { PictureKind Self };

    /// Draws the next packet of the flow. NoMemory comes if no memory was left, here and below.
    fn draw(
        &mut self,
        alloc: Global,
        step: FlowStep,
        item: &Record<'_>,
        packet: &Packet<'_>,
    ) -> Result<(), NoMemory>
        requires { length packet.now.options.now ≤ 1008 }
        ensures { OnOk result (self.new ≡ kind.drawn self.old step (entry_of item.now) (parts_by packet.now)) };

    /// Puts the picture at the text's end.
    fn put_text(&self, text: &mut Vec<u8>) -> Result<(), NoMemory>
        ensures { OnOk result (text.new.items ≡ text.old.items ++ kind.text self.now) };
}

/// A flow while it is drawn.
#[derive(Drop)]
pub(crate) struct FlowJob<P> {
    alloc: Global,
    walk: Walk,
    picture: P,
}

impl<P> Model for FlowJob<P> {
    ghost use Rattle.bridge_pictures.specs.FlowPictures.{FlowDrawing};

    ghost Value = { FlowDrawing P };

    ghost view = { λ j. record { walk = j.walk; picture = j.picture } };
}

impl<P: FlowPicture> FlowJob<P> {
    /// Before the first record, with the picture before the first packet of the flow of this number.
    pub(crate) fn new(alloc: Global, flow: u64, picture: P) -> FlowJob<P>
        ensures { result ≡ spec.drawing_of flow picture }
    {
        FlowJob {
            alloc,
            walk: Walk::new(alloc, flow),
            picture,
        }
    }

    // A packet, which is drawn if it is of the flow.
    #[tactic(auto, unfolding(crate::specs::FlowPictures::packet_walked))]
    fn pass_packet(
        &mut self,
        item: &Record<'_>,
        there: &Datagram<'_>,
        packet: &Packet<'_>,
    ) -> Result<(), NoMemory>
        requires { length packet.now.options.now ≤ 1008 }
        ensures { OnOk result (self.new ≡ spec.packet_walked P.kind self.old (entry_of item.now) (carried_by there.now) (parts_by packet.now)) }
    {
        match self.walk.go(there, &packet.header)? {
            Some(step) => self.picture.draw(self.alloc, step, item, packet),
            None => Ok(()),
        }
    }

    // A record of raw IP.
    #[tactic(auto, unfolding(crate::specs::FlowPictures::ip_drawn))]
    fn pass_ip(&mut self, item: &Record<'_>) -> Result<(), NoMemory>
        ensures { OnOk result (self.new ≡ spec.ip_drawn P.kind self.old (entry_of item.now)) }
    {
        let Some(there) = carried(item.link, item.bytes) else {
            return Ok(());
        };
        match decode(there.bytes) {
            Ok(packet) => self.pass_packet(item, &there, &packet),
            Err(_) => Ok(()),
        }
    }
}

impl<P: FlowPicture> RecordJob for FlowJob<P> {
    ghost use Rattle.bridge_pictures.specs.FlowPictures.{flow_work};

    ghost Deed = { Unit {0} };

    ghost work = { flow_work P.kind };

    fn begin(&mut self, _nanos: bool, _text: &mut Vec<u8>) -> Result<(), NoMemory> {
        Ok(())
    }

    fn pass(&mut self, item: &Record<'_>, _text: &mut Vec<u8>) -> Result<(), NoMemory> {
        let ip = ip_packet(self.alloc, item.link, item.bytes)?;
        self.pass_ip(&record_of_ip(item, ip.bytes()))
    }

    fn finish(
        &self,
        _untold: bool,
        _records: u64,
        _end: Option<PieceFault>,
        text: &mut Vec<u8>,
    ) -> Result<(), NoMemory> {
        self.picture.put_text(text)
    }
}
