//! The end of a run: the sink, and the count of what it wrote.

ghost use Rattle.std.specs.Prelude.{◌≡◌, [], ◌++◌, List, Ok, Err};
ghost use Rattle.std.specs.Result.{is_err};
ghost use Rattle.std.specs.Io.KnownBytes.{Keeps};
ghost use Rattle.pnm_image.specs.declared.format.Form.{Form as FormValue};
ghost use Rattle.pnm_image.specs.declared.message.Message.{Message as MessageValue};
ghost use Rattle.pnm_image.specs.Packets.{messages_in};
ghost use Rattle.pnm_write.specs.declared.fault.SinkFault.{SinkFault as Fault};
ghost use Rattle.pnm_write.specs.Sinks.{has_failed};

use crate::summary::Summary;
use pnm_image::{BytesOut, Form, Packet};
use pnm_write::{Sink, SinkFault, WriteBuffer};

/// The sink, what it has counted, and its fault.
#[derive(Drop)]
pub struct FusedSink<W> {
    /// The sink, which encodes and writes.
    pub sink: Sink<W>,
    summary: Summary,
    /// The fault of the output, once there is one.
    pub output: Result<(), SinkFault>,
    /// Whether it writes in plain form. Then a second image is refused, and nothing is flushed after that.
    is_plain: bool,
    /// Whether an image has ended since the last flush.
    keeps_image: bool,
    /// Whether a flush has failed.
    flush_failed: bool,
}

impl<W: BytesOut + Drop> FusedSink<W> {
    ghost use Rattle.pnm_serial.specs.FusedSinks.{output_of, AreWritten, HasTaken, AnswersFlushes};

    /// Creates the sink before the first message. It encodes into `buffer` and writes in `form`.
    pub fn new(buffer: WriteBuffer, writer: W, form: Form) -> FusedSink<W>
        ensures fresh { HasTaken W.held W.failures form writer [] result }
        ensures writer { output_of result ≡ writer }
    {
        FusedSink {
            sink: Sink::with_buffer(buffer, writer, form),
            summary: Summary { images: 0, rows: 0 },
            output: Ok(()),
            is_plain: form == Form::Plain,
            keeps_image: false,
            flush_failed: false,
        }
    }

    /// Writes the packet, unless the output had a fault before. If the writer keeps back some of an image that has
    /// ended, `flush_images` passes that on; in plain form it is passed on at once.
    #[inline(never)]
    pub fn put(&mut self, packet: &Packet)
        ensures taken { (form : FormValue) (start : W) (messages : List MessageValue)
            → HasTaken W.held W.failures form start messages self.old
            → HasTaken W.held W.failures form start (messages ++ messages_in packet.now) self.new }
        ensures same_device { W.same (output_of self.old) (output_of self.new) }
    {
        if self.output.is_ok() {
            self.output = self.sink.put(packet);
            if self.output.is_ok() {
                self.summary.count(packet);
                self.pass_on(packet);
            }
        }
    }

    /// Notes the end of an image if the packet has one, and in plain form flushes the writer then.
    fn pass_on(&mut self, packet: &Packet)
        ensures written { (form : FormValue) (start : W) (messages : List MessageValue)
            → AreWritten W.held W.failures form start messages self.old
            → AreWritten W.held W.failures form start messages self.new }
        ensures output { self.new.output ≡ self.old.output }
        ensures same_device { W.same (output_of self.old) (output_of self.new) }
    {
        if packet.ends_image() {
            self.keeps_image = true;
            if self.is_plain {
                self.flush();
            }
        }
    }

    /// Flushes the writer, if an image has ended since the last flush and the output has no fault, so that the image
    /// isn't kept back. If the flush fails, writing goes on, and `finish` returns `WriteFailed`, unless the output has
    /// another fault by then.
    pub fn flush_images(&mut self)
        ensures taken { (form : FormValue) (start : W) (messages : List MessageValue)
            → HasTaken W.held W.failures form start messages self.old
            → HasTaken W.held W.failures form start messages self.new }
        ensures same_device { W.same (output_of self.old) (output_of self.new) }
    {
        if self.keeps_image && self.output.is_ok() {
            self.flush();
        }
    }

    /// Flushes the writer.
    #[inline(never)]
    fn flush(&mut self)
        ensures written { (form : FormValue) (start : W) (messages : List MessageValue)
            → AreWritten W.held W.failures form start messages self.old
            → AreWritten W.held W.failures form start messages self.new }
        ensures output { self.new.output ≡ self.old.output }
        ensures same_device { W.same (output_of self.old) (output_of self.new) }
    {
        match self.sink.flush() {
            Ok(()) => {}
            Err(_) => self.flush_failed = true,
        }
        self.keeps_image = false;
    }

    /// Flushes the writer, and returns it with the summary. If the output had a fault before, returns that fault and
    /// doesn't flush. Otherwise returns `WriteFailed` if this flush fails or an earlier one did.
    pub fn finish(self) -> (W, Result<Summary, SinkFault>)
        requires { has_failed self.sink ≡ is_err self.output }
        ensures bytes { Keeps (W.held (output_of self)) (W.held result.0) }
        ensures broken { (fault : Fault) → self.output ≡ Err fault
            → (result.1 ≡ Err fault) × (result.0 ≡ output_of self) }
        ensures well { self.output ≡ Ok tt → AnswersFlushes W.failures self result.0 result.1 }
        ensures same_device { W.same (output_of self) result.0 }
    {
        let FusedSink {
            sink,
            summary,
            output,
            flush_failed,
            ..
        } = self;
        let (writer, flushed) = sink.finish();
        match output.and(flushed) {
            Ok(()) if !flush_failed => (writer, Ok(summary)),
            Ok(()) => (writer, Err(SinkFault::WriteFailed)),
            Err(fault) => (writer, Err(fault)),
        }
    }
}
