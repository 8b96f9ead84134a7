//! The sink: messages to bytes.

ghost use Rattle.std.specs.Prelude.{◌≡◌, List, [], ◌++◌, MatchResult, MatchOption, IfErr, OnOk, OnErr, IfOk, Err, None};
ghost use Rattle.std.specs.Prelude.{true, false, IfSome, IfNone};
ghost use Rattle.std.specs.List.{AllByRecursion};
ghost use Rattle.std.specs.Io.KnownBytes.{Appends, Keeps};
ghost use Rattle.pnm_image.specs.Devices.{Failed};
ghost use Rattle.pnm_image.specs.Heads.{HeadValue};
ghost use Rattle.pnm_image.specs.declared.message.Message.TheVariants.{Begin};
ghost use Rattle.pnm_image.specs.Packets.{messages_in};
ghost use Rattle.pnm_image.specs.Places.{IsLawfulFrom, place_of};
ghost use Rattle.pnm_write.specs.Encoding.{bytes_from};
ghost use Rattle.pnm_write.specs.Forms.{form_fault, form_fault_from, has_begun_by};
ghost use Rattle.pnm_write.specs.Sinks.{writer_of, form_of, has_begun, next_place, has_failed, HasRows, HasPut};
ghost use Rattle.pnm_write.specs.Sinks.{HasWritten, AreWritable, Refuses};
ghost use Rattle.pnm_write.specs.Internal.Sinks.{BeginsNone, BeginsWith, IsHeadRefused};
ghost use Rattle.pnm_write.specs.Internal.WriteCalls.{WriteCall};

use crate::fault::SinkFault;
use crate::header::write_header;
use crate::rows::write_repeated;
use crate::write_buffer::WriteBuffer;
use pnm_image::{BytesOut, DeviceFailed, Form, Head, Kind, Packet, Place};
use std::alloc::{AllocError, Global};

/// Writes the messages of a stream of images as Netpbm images of one form: PBM, PGM, PPM and PAM, by
/// the kind of each image. In raw form any number of images come one after another; in plain form
/// there is one, which isn't PAM. It takes no memory but its buffer's.
#[derive(Drop)]
pub struct Sink<W> {
    writer: W,
    place: Place,
    form: Form,
    /// Whether an image has begun.
    has_begun: bool,
    has_failed: bool,
    buffer: WriteBuffer,
}

impl<W: BytesOut> Sink<W> {
    /// Creates a sink over the writer with a buffer of its own. Writes nothing.
    ///
    /// # Errors
    ///
    /// If there is no memory for the buffer. The writer is gone then: `with_buffer` keeps it.
    pub fn new(alloc: Global, writer: W, form: Form) -> Result<Sink<W>, AllocError>
    where
        W: Drop,
        ensures writer { IfOk result (λ sink. writer_of sink ≡ writer) }
        ensures form { IfOk result (λ sink. form_of sink ≡ form) }
        ensures sound { IfOk result (λ sink. has_failed sink ≡ false) }
        ensures none { IfOk result (λ sink. HasPut sink []) }
        ensures unwritten { IfOk result (λ sink. HasWritten W.held (W.held writer) sink []) }
    {
        let buffer = WriteBuffer::new(alloc)?;
        Ok(Sink::with_buffer(buffer, writer, form))
    }

    /// Creates a sink over the writer that encodes into this buffer. Writes nothing.
    pub fn with_buffer(buffer: WriteBuffer, writer: W, form: Form) -> Sink<W>
        ensures writer { writer_of result ≡ writer }
        ensures form { form_of result ≡ form }
        ensures sound { has_failed result ≡ false }
        ensures none { HasPut result [] }
        ensures unwritten { HasWritten W.held (W.held writer) result [] }
    {
        Sink {
            writer,
            place: Place::new(),
            form,
            has_begun: false,
            has_failed: false,
            buffer,
        }
    }

    /// Writes all bytes of the packet's messages: at the beginning of an image its header, and for a row its samples,
    /// as pbm(5), pgm(5), ppm(5) and pam(5) lay them out. The other messages have none. `put` doesn't flush the writer.
    ///
    /// In plain form each row begins a line, a line has at most 70 bytes before its LF, and as many
    /// samples as it can hold, with one blank between each two.
    ///
    /// The faults, in order: `Broken` after an earlier fault; `OutOfOrder` if a message can't come at its place in the
    /// stream, or begins an image of height 0; in plain form `SecondPlain` if the packet begins a second image,
    /// and `PlainPam` if it begins a PAM image; `WriteFailed` if the writer fails, with a prefix of the bytes written.
    /// For the others nothing is written.
    pub fn put(&mut self, packet: &Packet) -> Result<(), SinkFault>
        ensures written { OnOk result
            (Appends (W.held (writer_of self.old)) (W.held (writer_of self.new))
            (bytes_from (form_of self.old) (next_place self.old) (messages_in packet.now))) }
        ensures taken { OnOk result
            (AreWritable (form_of self.old) (has_begun self.old) (next_place self.old) (messages_in packet.now)
            × (W.failures (writer_of self.new) ≡ W.failures (writer_of self.old))) }
        ensures sound { OnOk result ((has_failed self.old ≡ false) × (has_failed self.new ≡ false)) }
        ensures form { form_of self.new ≡ form_of self.old }

        // The packet's messages were put, too; after a fault none of them were.
        ensures more { OnOk result ((messages : List _) → HasPut self.old messages
            → HasPut self.new (messages ++ messages_in packet.now)) }
        ensures same { OnErr result ((messages : List _) → HasPut self.old messages → HasPut self.new messages) }

        // All that was written is the bytes of the messages that were put.
        ensures bytes { OnOk result ((start : _) (messages : List _) → HasWritten W.held start self.old messages
            → HasWritten W.held start self.new (messages ++ messages_in packet.now)) }

        // After a fault nothing more is written.
        ensures stays { OnErr result (has_failed self.new ≡ true) }
        ensures broken { has_failed self.old ≡ true → (result ≡ Err SinkFault.Broken) × (self.new ≡ self.old) }
        ensures refused { has_failed self.old ≡ false
            → IfErr result (λ fault. Refuses (form_of self.old) (has_begun self.old) (next_place self.old)
            (messages_in packet.now) fault
            (W.held (writer_of self.old)) (W.held (writer_of self.new))
            (W.failures (writer_of self.old)) (W.failures (writer_of self.new))) }
        ensures same_device { W.same (writer_of self.old) (writer_of self.new) }
    {
        let written = self.write(packet);
        self.has_failed = written.is_err();
        written
    }

    /// Flushes the writer, so that it passes on what it still keeps back, unless there was a fault before. The faults
    /// are `Broken` after an earlier one, and `WriteFailed` if the flush fails. A failed flush isn't a fault of the
    /// sink: more may be put, and another flush may succeed.
    pub fn flush(&mut self) -> Result<(), SinkFault>
        ensures bytes { Keeps (W.held (writer_of self.old)) (W.held (writer_of self.new)) }
        ensures place { next_place self.new ≡ next_place self.old }
        ensures form { form_of self.new ≡ form_of self.old }
        ensures begun { has_begun self.new ≡ has_begun self.old }
        ensures sound { has_failed self.new ≡ has_failed self.old }
        ensures put { (messages : List _) → HasPut self.old messages → HasPut self.new messages }
        ensures written { (start : _) (messages : List _) → HasWritten W.held start self.old messages
            → HasWritten W.held start self.new messages }
        ensures broken { has_failed self.old ≡ true → (result ≡ Err SinkFault.Broken) × (self.new ≡ self.old) }
        ensures flush { has_failed self.old ≡ false → MatchResult result
            (λ _. W.failures (writer_of self.new) ≡ W.failures (writer_of self.old))
            (λ fault. (fault ≡ SinkFault.WriteFailed)
            × Failed (W.failures (writer_of self.old)) (W.failures (writer_of self.new))) }
        ensures same_device { W.same (writer_of self.old) (writer_of self.new) }
    {
        if self.has_failed {
            Err(SinkFault::Broken)
        } else {
            match self.writer.flush() {
                Ok(()) => Ok(()),
                Err(_) => Err(SinkFault::WriteFailed),
            }
        }
    }

    /// Flushes the writer as `flush` does, and returns it. Success doesn't mean that the stream was ended.
    pub fn finish(self) -> (W, Result<(), SinkFault>)
        ensures bytes { Keeps (W.held (writer_of self)) (W.held result.0) }
        ensures broken { has_failed self ≡ true
            → (result.0 ≡ writer_of self) × (result.1 ≡ Err SinkFault.Broken) }
        ensures flush { has_failed self ≡ false → MatchResult result.1
            (λ _. W.failures result.0 ≡ W.failures (writer_of self))
            (λ fault. (fault ≡ SinkFault.WriteFailed) × Failed (W.failures (writer_of self)) (W.failures result.0)) }
        ensures same_device { W.same (writer_of self) result.0 }
    {
        let mut sink = self;
        let flushed = sink.flush();
        (sink.writer, flushed)
    }

    /// Writes the packet as `put` does. It doesn't note a fault.
    fn write(&mut self, packet: &Packet) -> Result<(), SinkFault>
        ensures written { OnOk result
            (Appends (W.held (writer_of self.old)) (W.held (writer_of self.new))
            (bytes_from (form_of self.old) (next_place self.old) (messages_in packet.now))) }
        ensures taken { OnOk result
            (AreWritable (form_of self.old) (has_begun self.old) (next_place self.old) (messages_in packet.now)
            × (has_failed self.old ≡ false)
            × (next_place self.new ≡ place_of (next_place self.old) (messages_in packet.now))
            × (has_begun self.new ≡ has_begun_by (has_begun self.old) (messages_in packet.now))) }
        ensures broken { has_failed self.old ≡ true → (result ≡ Err SinkFault.Broken) × (self.new ≡ self.old) }
        ensures refused { has_failed self.old ≡ false
            → IfErr result (λ fault. Refuses (form_of self.old) (has_begun self.old) (next_place self.old)
            (messages_in packet.now) fault
            (W.held (writer_of self.old)) (W.held (writer_of self.new))
            (W.failures (writer_of self.old)) (W.failures (writer_of self.new))) }
        ensures form { form_of self.new ≡ form_of self.old }
        ensures sound { has_failed self.new ≡ has_failed self.old }
        ensures count { OnOk result (W.failures (writer_of self.new) ≡ W.failures (writer_of self.old)) }
        ensures same_device { W.same (writer_of self.old) (writer_of self.new) }
    {
        if self.has_failed {
            return Err(SinkFault::Broken);
        }
        let Some(after) = self.place.after(packet) else {
            return Err(SinkFault::OutOfOrder);
        };
        let begun = match begins(self.form, self.has_begun, packet) {
            Ok(begun) => begun,
            Err(fault) => return Err(fault),
        };
        let (writer, buffer) = (&mut self.writer, &mut self.buffer);
        let written = write_packet(writer, buffer, self.form, self.place, packet);
        if written.is_err() {
            return Err(SinkFault::WriteFailed);
        }
        self.place = after;
        self.has_begun = begun;
        Ok(())
    }
}

/// Returns whether an image has begun after the packet. `has_begun` says whether one had begun before it.
///
/// # Errors
///
/// If the packet begins an image of height 0, or one that the form has no place for.
fn begins(form: Form, has_begun: bool, packet: &Packet) -> Result<bool, SinkFault>
    ensures begun { IfOk result (λ begun. AllByRecursion HasRows (messages_in packet.now)
        × (form_fault_from form has_begun (messages_in packet.now) ≡ None)
        × (begun ≡ has_begun_by has_begun (messages_in packet.now))) }
    ensures refused { IfErr result (λ fault. (head : HeadValue) × BeginsWith head (messages_in packet.now)
        × IsHeadRefused form has_begun head fault) }
{
    let Some(head) = head_of(packet) else {
        return Ok(has_begun);
    };
    match head_fault(form, has_begun, head) {
        Some(fault) => Err(fault),
        None => Ok(true),
    }
}

/// Returns the head of the image that the packet begins, if it begins one.
fn head_of(packet: &Packet) -> Option<&Head>
    ensures some { IfSome result (λ head. BeginsWith head.now (messages_in packet.now)) }
    ensures none { IfNone result (BeginsNone (messages_in packet.now)) }
{
    match packet {
        Packet::Part(part) => match part.parts().0 {
            Some(head) => Some(head),
            None => None,
        },
        Packet::StreamEnd | Packet::Stop => None,
    }
}

/// Why no image begins with this head. `has_begun` says whether one had begun before it.
fn head_fault(form: Form, has_begun: bool, head: &Head) -> Option<SinkFault>
    ensures { MatchOption result
        (HasRows (Begin head.now) × (form_fault form has_begun (Begin head.now) ≡ None))
        (IsHeadRefused form has_begun head.now) }
{
    let shape = head.shape();
    if shape.height == 0 {
        return Some(SinkFault::OutOfOrder);
    }
    match form {
        Form::Raw => None,
        Form::Plain if has_begun => Some(SinkFault::SecondPlain),
        Form::Plain if shape.kind == Kind::Pam => Some(SinkFault::PlainPam),
        Form::Plain => None,
    }
}

/// Writes the bytes of a packet that comes at this place. The end of an image has none.
fn write_packet<W: BytesOut>(
    writer: &mut W,
    buffer: &mut WriteBuffer,
    form: Form,
    place: Place,
    packet: &Packet,
) -> Result<(), DeviceFailed>
    requires { IsLawfulFrom place (messages_in packet.now) }
    ensures { WriteCall W.held W.failures W.same writer.old writer.new result
        (bytes_from form place (messages_in packet.now)) }
{
    let Packet::Part(part) = packet else {
        return Ok(());
    };
    let (head, rows, _) = part.parts();
    if let Some(head) = head {
        write_header(writer, buffer, form, head)?;
        return write_repeated(writer, buffer, form, head.shape(), rows);
    }
    match place {
        Place::Inside(shape, _) => write_repeated(writer, buffer, form, shape, rows),
        Place::Between | Place::After => Ok(()),
    }
}
