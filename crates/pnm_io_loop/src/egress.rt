//! The output side of a run over threads: the ring that brings the results, and the sink that writes them.

ghost use Rattle.std.specs.Prelude.{◌≡◌, ◌<◌, ◌⊎◌, [], ◌++◌, List, length, IsTrue, IsFalse, true, false};
ghost use Rattle.pnm_image.specs.Messages.{EndsBy};
ghost use Rattle.pnm_image.specs.Packets.{messages_in, ending_of_packet};
ghost use Rattle.pnm_stages.specs.Rings.{received, sent, known_items, known_packets, IsPair};
ghost use Rattle.pnm_stages.specs.Rings.{SameSender, SameReceiver};
ghost use Rattle.pnm_image.specs.declared.format.Form.{Form as FormValue};
ghost use Rattle.pnm_image.specs.declared.message.Message.{Message as MessageValue};
ghost use Rattle.pnm_io_loop.specs.Egresses.{HasReceived};
ghost use Rattle.pnm_serial.specs.FusedSinks.{output_of};

use crate::image_count::count_image;
use pnm_image::{BytesOut, Ending, Form, Packet};
use pnm_read::SpareRows;
use pnm_serial::FusedSink;
use pnm_stages::{Receiver, Sender};
use pnm_write::WriteBuffer;
use std::sync::Wait;

/// The ring that brings the results of a run, and the sink that writes them.
#[derive(Drop)]
pub struct Egress<W> {
    /// The end of the ring that the results are received on.
    pub input: Receiver,
    /// The sink.
    pub fused_sink: FusedSink<W>,
    /// Whether the end of the stream, or Stop, was taken.
    pub has_ended: bool,
    /// Whether the sender hung up.
    is_gone: bool,
    /// The number of images whose end was taken, at most `u64::MAX`.
    images: u64,
}

impl<W: BytesOut + Drop> Egress<W> {
    ghost use Rattle.pnm_io_loop.specs.Egresses.{IsEgress, egress_is_over, HasTakenMore, HasTakenNothing};

    /// Creates an egress that encodes through `buffer` and writes in `form`. It has taken nothing yet.
    pub fn new(input: Receiver, buffer: WriteBuffer, writer: W, form: Form) -> Egress<W>
        ensures receiving { IsEgress W.held W.failures form writer (received input) result }
        ensures parts { (result.input ≡ input) × (output_of result.fused_sink ≡ writer) }
    {
        Egress {
            input,
            fused_sink: FusedSink::new(buffer, writer, form),
            has_ended: false,
            is_gone: false,
            images: 0,
        }
    }

    /// Returns whether there is nothing more to take: the end of the stream or Stop was taken, or the sender hung up.
    pub fn is_over(&self) -> bool
        ensures { result ≡ egress_is_over self.now }
    {
        self.has_ended || self.is_gone
    }

    /// Returns the number of images whose end was taken, at most `u64::MAX`.
    pub fn images(&self) -> u64
        ensures { result ≡ self.now.images }
    {
        self.images
    }

    /// Takes the messages that one look at the ring shows, and writes them. The rows become spare ones. Returns false
    /// if there is no message, and the sender didn't hang up.
    pub fn try_receive(&mut self, spares: &mut SpareRows) -> bool
        requires going { egress_is_over self.old ≡ false }
        ensures receiving { (form : FormValue) (start : W) (before : List MessageValue)
            → IsEgress W.held W.failures form start before self.old
            → IsEgress W.held W.failures form start before self.new }
        ensures ring { SameReceiver self.old.input self.new.input }
        ensures same_device { W.same (output_of self.old.fused_sink) (output_of self.new.fused_sink) }
        ensures goes_on { IsTrue result → HasTakenMore self.old self.new }
        ensures none { IsFalse result → HasTakenNothing self.old self.new × (known_items self.old.input ≡ []) }
    {
        if !self.input.has_message() {
            self.is_gone = self.input.is_abandoned();
            return self.is_gone;
        }
        self.take_seen(spares);
        true
    }

    /// Writes and takes the packets that were seen in the ring, up to one that ends the stream. Each is written while
    /// it is still in the ring.
    fn take_seen(&mut self, spares: &mut SpareRows)
        requires going { self.old.has_ended ≡ false }
        requires some { 0 < length (known_packets self.old.input) }
        ensures receiving { (form : FormValue) (start : W) (before : List MessageValue)
            → IsEgress W.held W.failures form start before self.old
            → IsEgress W.held W.failures form start before self.new }
        ensures ring { SameReceiver self.old.input self.new.input }
        ensures same_device { W.same (output_of self.old.fused_sink) (output_of self.new.fused_sink) }
        ensures goes_on { length (received self.old.input) < length (received self.new.input) }
    {
        self.take_next(spares);
        while !self.has_ended && self.input.has_seen_message() {
            self.take_next(spares);
        }
    }

    /// Writes the next packet that was seen in the ring, and takes it.
    #[inline(always)]
    fn take_next(&mut self, spares: &mut SpareRows)
        requires going { self.old.has_ended ≡ false }
        requires some { 0 < length (known_packets self.old.input) }
        ensures receiving { (form : FormValue) (start : W) (before : List MessageValue)
            → IsEgress W.held W.failures form start before self.old
            → IsEgress W.held W.failures form start before self.new }
        ensures ring { SameReceiver self.old.input self.new.input }
        ensures same_device { W.same (output_of self.old.fused_sink) (output_of self.new.fused_sink) }
        ensures goes_on { length (received self.old.input) < length (received self.new.input) }
        ensures fewer { length (known_packets self.new.input) < length (known_packets self.old.input) }
    {
        let packet = self.input.peek_known();
        count_image(&mut self.images, packet);
        put(&mut self.fused_sink, &mut self.has_ended, packet);
        recycle(self.input.receive_known(), spares);
    }

    /// Flushes the writer, if an image has ended since the last flush, so that no image is kept back while the source
    /// waits for its reader.
    pub fn flush_images(&mut self)
        ensures receiving { (form : FormValue) (start : W) (before : List MessageValue)
            → IsEgress W.held W.failures form start before self.old
            → IsEgress W.held W.failures form start before self.new }
        ensures taken { HasTakenNothing self.old self.new × (self.new.input ≡ self.old.input) }
        ensures ring { SameReceiver self.old.input self.new.input }
        ensures same_device { W.same (output_of self.old.fused_sink) (output_of self.new.fused_sink) }
    {
        self.fused_sink.flush_images();
    }

    /// Waits once for a message.
    pub fn wait<R: Wait>(&self, rt: &R) {
        self.input.wait(rt);
    }

    /// Takes and writes what is left in the ring, with both of its ends at hand: what the sender sent before it hung
    /// up.
    pub fn receive_rest(&mut self, sender: &mut Sender)
        requires one_ring { IsPair sender.old self.old.input }
        ensures receiving { (form : FormValue) (start : W) (before : List MessageValue)
            → IsEgress W.held W.failures form start before self.old
            → IsEgress W.held W.failures form start before self.new }
        ensures in_order { received self.new.input ++ known_items self.new.input ≡ sent sender.new }
        ensures rest { (self.new.has_ended ≡ true) ⊎ (known_items self.new.input ≡ []) }
        ensures ring { SameReceiver self.old.input self.new.input }
        ensures sender { SameSender sender.old sender.new × (sent sender.new ≡ sent sender.old) }
        ensures same_device { W.same (output_of self.old.fused_sink) (output_of self.new.fused_sink) }
    {
        self.input.look_beside(sender);
        while !self.has_ended && self.input.has_seen_message() {
            let packet = self.input.receive_known();
            count_image(&mut self.images, &packet);
            put(&mut self.fused_sink, &mut self.has_ended, &packet);
            drop(packet);
        }
    }

    /// Returns the sink, and whether the end of the stream or Stop was taken.
    pub fn into_parts(self) -> (FusedSink<W>, bool)
        ensures { (result.0 ≡ self.fused_sink) × (result.1 ≡ self.has_ended) }
    {
        (self.fused_sink, self.has_ended)
    }
}

/// Writes the packet, unless it is Stop, and sets `has_ended` if it ends the stream.
#[inline(always)]
fn put<W: BytesOut + Drop>(fused_sink: &mut FusedSink<W>, has_ended: &mut bool, packet: &Packet)
    requires going { has_ended.old ≡ false }
    requires ends { EndsBy (ending_of_packet packet.now) (messages_in packet.now) }
    ensures put { (form : FormValue) (start : W) (l : List MessageValue)
        → HasReceived W.held W.failures form start l has_ended.old fused_sink.old
        → HasReceived W.held W.failures form start (l ++ messages_in packet.now) has_ended.new fused_sink.new }
    ensures same_device { W.same (output_of fused_sink.old) (output_of fused_sink.new) }
{
    match packet.ending() {
        Ending::More => fused_sink.put(packet),
        Ending::Whole => {
            fused_sink.put(packet);
            *has_ended = true;
        }
        Ending::BrokenOff => *has_ended = true,
    }
}

/// Drops the packet, but keeps its rows as a spare row.
fn recycle(packet: Packet, spares: &mut SpareRows) {
    let Packet::Part(part) = packet else {
        return;
    };
    let (_, rows, _) = part.into_parts();
    if let Some(rows) = rows {
        spares.keep_rows(rows.into_parts().0);
    }
}
