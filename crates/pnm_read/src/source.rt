//! The source of a stream: the bytes of a reader as packets.

ghost use Rattle.std.specs.Prelude.{◌≡◌, ◌<◌, ◌≤◌, ◌-◌, ◌++◌, ◌⊎◌, ℕ, List, Some, None, Ok, Err};
ghost use Rattle.std.specs.Prelude.{true, length, IfOk, IfErr, IfSome};
ghost use Rattle.pnm_image.specs.Devices.{Failed};
ghost use Rattle.pnm_image.specs.Packets.{messages_in};
ghost use Rattle.pnm_image.specs.declared.packet.Packet.TheVariants.{StreamEnd, Stop};
ghost use Rattle.pnm_read.specs.declared.fault.InputFault.{InputFault as Fault};
ghost use Rattle.pnm_read.specs.declared.fault.InputFault.TheVariants.{ReadFailed, Memory};
ghost use Rattle.pnm_read.specs.Internal.BufferedReaders.{ReadCall};
ghost use Rattle.pnm_read.specs.Internal.RasterRows.{FindsRows, due_after};
ghost use Rattle.pnm_image.specs.Parts.{head_messages, end_messages};
ghost use Rattle.pnm_image.specs.Rows.{row_messages, rows_list};
ghost use Rattle.pnm_read.specs.Said.{after_messages};
ghost use Rattle.pnm_read.specs.Awaiting.{due_at, state_due};
ghost use Rattle.pnm_read.specs.Internal.Awaiting.{HasRow, HasRowNext, HasRowNext-prop, MayBeGiven};
ghost use Rattle.pnm_read.specs.Internal.Awaiting.{Gives, GivesAtStart, SeesText};

use crate::buffered_reader::{BufferedReader, ReadBuffer};
use crate::fault::InputFault;
use crate::header::{is_complete, read_format, read_head};
use crate::raster::Raster;
use crate::spare_rows::SpareRows;
use crate::{held_rows, plain, raw};
use pnm_image::{BytesIn, Head, Packet, Part, RepeatedRows, Rows};
use std::alloc::Global;

/// What a source awaits of its input.
#[derive(Clone, Copy)]
enum Awaited {
    /// The first image of the stream.
    FirstImage,
    /// A row of this raster, which has one left.
    Row(Raster),
    /// After a raw image, the next one or the end of the stream.
    ImageOrEnd,
    /// After a plain image, the end of the stream: what follows is ignored.
    End,
}

/// How far a source has come.
#[derive(Clone, Copy)]
enum State {
    Awaits(Awaited),
    /// The end of the stream was given.
    Ended,
    /// A fault was given.
    Failed(InputFault),
}

/// Reads a stream of images, packet by packet: raw ones of `P4` to `P7` one after another, or one plain image of `P1`
/// to `P3`, as pbm(5), pgm(5), ppm(5) and pam(5) lay them out. A row has width times depth samples; a black pixel of
/// PBM is sample 0. What follows a plain image is ignored if it begins with white space or `#`.
///
/// A source reads only when it needs a byte that it doesn't hold, and never after a read that gave no byte. It holds at
/// most a row and a buffer full of bytes: 4,096 in the buffer that `new` makes.
#[derive(Drop)]
pub struct Source<R> {
    input: BufferedReader<R>,
    state: State,
    ghost row: { HasRowNext state } by { HasRowNext-prop state },
}

impl<R: BytesIn> Source<R> {
    ghost use Rattle.pnm_read.specs.Sources.{IsFreshSource, Tells, MayGive, SeesEnd, MayGiveMore, stopped_by};
    ghost use Rattle.pnm_read.specs.Sources.{has_ended, reader_of};

    /// A source over the reader, with a buffer of its own. It reads nothing. The only fault is
    /// `Memory`, and then the reader is gone: `with_buffer` keeps it.
    pub fn new(alloc: Global, reader: R) -> Result<Source<R>, InputFault>
    where
        R: Drop,
        ensures made { IfOk result (λ source. IsFreshSource reader source) }
        ensures refused { IfErr result (λ fault. fault ≡ Memory) }
    {
        let buffer = ReadBuffer::new(alloc)?;
        Ok(Source::with_buffer(buffer, reader))
    }

    /// A source over the reader that reads through this buffer. It reads nothing.
    pub fn with_buffer(buffer: ReadBuffer, reader: R) -> Source<R>
        ensures { IsFreshSource reader result }
    {
        Source {
            input: BufferedReader::new(buffer, reader),
            state: State::Awaits(Awaited::FirstImage),
        }
    }

    /// The next packet, or `None` after the end of the stream, for good. Of an image it is as many rows as are held
    /// whole, or one row, for which it reads; before them the head, if it was just read, and behind them the image's
    /// end, if they are the last. The head comes without rows if the image is plain, or if none of them is held whole
    /// or comes before a sample above the maxval, and with the end if there are none.
    ///
    /// The fault is the first that the text has (see `InputFault`), after all that comes before it. If the reader
    /// fails, `ReadFailed` takes the place of all later faults; if memory runs out, `Memory` does. After a fault,
    /// `next` returns the same fault and reads nothing.
    ///
    /// Raw rows of bits or bytes that are held whole take the memory of the spare row that was kept the longest, if
    /// they fit in it.
    pub fn next(&mut self, spares: &mut SpareRows) -> Result<Option<Packet>, InputFault>
        // What is said of the text comes in turn, and then its end or its fault. Stop doesn't come.
        ensures told { Tells R.left self.old result self.new }
        ensures some { IfOk result (λ r. IfSome r (λ packet. 1 ≤ length (messages_in packet))) }
        ensures no_stop { result ≡ Ok (Some Stop) → ⊥ }
        ensures end { SeesEnd R.left self.old → SeesEnd R.left self.new }
        ensures unread { SeesEnd R.left self.old → MayGiveMore R.left self.new }

        // The end and a fault stay.
        ensures ended { result ≡ Ok (Some StreamEnd) → has_ended self.new ≡ true }
        ensures for_good { has_ended self.old ≡ true → (result ≡ Ok None) × (self.new ≡ self.old) }
        ensures stopped { IfErr result (λ fault. stopped_by self.new ≡ Some fault) }
        ensures stays { (fault : Fault) → stopped_by self.old ≡ Some fault
            → (result ≡ Err fault) × (self.new ≡ self.old) }

        // The reader.
        ensures same_device { R.same (reader_of self.old) (reader_of self.new) }
        ensures count { (result ≡ Err ReadFailed → ⊥)
            → R.failures (reader_of self.new) ≡ R.failures (reader_of self.old) }
        ensures read_failed { result ≡ Err ReadFailed → (stopped_by self.old ≡ Some ReadFailed)
            ⊎ Failed (R.failures (reader_of self.old)) (R.failures (reader_of self.new)) }
        ensures not_at_end { result ≡ Err ReadFailed → (stopped_by self.old ≡ Some ReadFailed)
            ⊎ ((rest : List ℕ) → MayGive self.new rest) }
    {
        match self.state {
            State::Awaits(awaited) => match self.go_on(awaited, spares) {
                Ok(packet) => Ok(Some(packet)),
                Err(fault) => {
                    self.state = State::Failed(fault);
                    Err(fault)
                }
            },
            State::Ended => Ok(None),
            State::Failed(fault) => Err(fault),
        }
    }

    /// Whether the held bytes determine the next packet, so that `next` makes no read. They determine a header if it is
    /// held whole, and a row of a plain image if all that is left of the input is held.
    pub fn holds_next(&self) -> bool
        // After the end and after a fault nothing is read.
        ensures ended { has_ended self.now ≡ true → result ≡ true }
        ensures stopped { (fault : Fault) → stopped_by self.now ≡ Some fault → result ≡ true }
    {
        match &self.state {
            State::Awaits(awaited) => holds_at(&self.input, awaited),
            State::Ended | State::Failed(_) => true,
        }
    }

    /// The next packet, where this is awaited.
    fn go_on(&mut self, awaited: Awaited, spares: &mut SpareRows) -> Result<Packet, InputFault>
        requires row { HasRow awaited }
        ensures { ReadCall R.left R.failures R.same self.old.input self.new.input result
            (Gives awaited result self.new.state) }
    {
        match awaited {
            Awaited::FirstImage => self.begin(true, spares),
            Awaited::Row(raster) => self.give_rows(&raster, spares),
            Awaited::ImageOrEnd => self.follow(spares),
            Awaited::End => Ok(self.end()),
        }
    }

    /// The head of an image, which is the first of the stream or comes after a raw one, and the rows that are held.
    fn begin(&mut self, is_first: bool, spares: &mut SpareRows) -> Result<Packet, InputFault>
        ensures { ReadCall R.left R.failures R.same self.old.input self.new.input result
            (GivesAtStart is_first result self.new.state) }
    {
        let format = read_format(&mut self.input, is_first)?;
        let head = read_head(&mut self.input, format)?;
        let raster = Raster::new(format, head.shape());
        let rows = held_rows::take(&mut self.input, spares, &raster)?;
        Ok(self.part(Some(head), &raster, rows))
    }

    /// The next rows of a raster.
    fn give_rows(&mut self, raster: &Raster, spares: &mut SpareRows) -> Result<Packet, InputFault>
        requires row { raster.now.y < raster.now.shape.height }
        ensures { ReadCall R.left R.failures R.same self.old.input self.new.input result
            (Gives (Awaited.Row raster.now) result self.new.state) }
    {
        let rows = read_rows(&mut self.input, spares, raster)?;
        Ok(self.part(None, raster, Some(rows)))
    }

    /// A part of an image: the head, if it was just read, the next rows of the raster, and the image's end after the
    /// last one.
    fn part(&mut self, head: Option<Head>, raster: &Raster, rows: Option<Rows>) -> Packet
        requires some { head ≡ None → 1 ≤ length (rows_list rows) }
        requires left { length (rows_list rows) ≤ raster.now.shape.height - raster.now.y }
        ensures said { (text : List ℕ)
            → after_messages (head_messages head ++ row_messages (rows_list rows))
            (due_after (length (rows_list rows)) raster.now text)
            ≡ after_messages (messages_in result) (state_due self.new.state text) }
        ensures given { MayBeGiven result self.new.state }
        ensures input { self.new.input ≡ self.old.input }
    {
        let (awaited, ends_image) = awaited_at(raster.after_rows(count_of(&rows)));
        self.state = State::Awaits(awaited);
        Packet::Part(Part::new(head, rows.map(RepeatedRows::once), ends_image))
    }

    /// What follows a raw image: the next one, or the end of the stream if no byte is left.
    fn follow(&mut self, spares: &mut SpareRows) -> Result<Packet, InputFault>
        ensures { ReadCall R.left R.failures R.same self.old.input self.new.input result
            (Gives Awaited.ImageOrEnd result self.new.state) }
    {
        if is_at_end(&mut self.input)? {
            return Ok(self.end());
        }
        self.begin(false, spares)
    }

    /// The end of the stream.
    fn end(&mut self) -> Packet
        ensures packet { result ≡ StreamEnd }
        ensures state { self.new.state ≡ State.Ended }
        ensures input { self.new.input ≡ self.old.input }
    {
        self.state = State::Ended;
        Packet::StreamEnd
    }

    /// The reader.
    pub fn into_reader(self) -> R
        ensures { result ≡ reader_of self }
    {
        self.input.into_reader()
    }
}

/// Whether the held bytes determine the packet that is awaited.
fn holds_at<R: BytesIn>(input: &BufferedReader<R>, awaited: &Awaited) -> bool {
    match awaited {
        Awaited::FirstImage => input.holds(usize::MAX) || is_complete(input.bytes(), true),
        Awaited::Row(raster) => held_rows::holds_row(input, raster),
        Awaited::ImageOrEnd => input.holds(usize::MAX) || is_complete(input.bytes(), false),
        Awaited::End => true,
    }
}

/// The next rows of the raster.
fn read_rows<R: BytesIn>(
    input: &mut BufferedReader<R>,
    spares: &mut SpareRows,
    raster: &Raster,
) -> Result<Rows, InputFault>
    requires row { raster.now.y < raster.now.shape.height }
    ensures { ReadCall R.left R.failures R.same input.old input.new result (FindsRows raster.now result) }
{
    if raster.format.is_plain() {
        plain::read_rows(input, raster)
    } else {
        raw::read_rows(input, spares, raster)
    }
}

/// How many rows these are.
fn count_of(rows: &Option<Rows>) -> u32
    ensures { result ≡ length (rows_list rows.now) }
{
    match rows {
        Some(rows) => rows.count(),
        None => 0,
    }
}

/// What is awaited where the next row of a raster would begin, and whether the image ends there.
fn awaited_at(raster: Raster) -> (Awaited, bool)
    ensures due { (text : List ℕ)
        → due_at (Awaited.Row raster) text ≡ after_messages (end_messages result.1) (due_at result.0 text) }
    ensures row { HasRow result.0 }
{
    if raster.y < raster.shape.height {
        (Awaited::Row(raster), false)
    } else if raster.format.is_plain() {
        (Awaited::End, true)
    } else {
        (Awaited::ImageOrEnd, true)
    }
}

/// Whether no byte is left.
fn is_at_end<R: BytesIn>(input: &mut BufferedReader<R>) -> Result<bool, InputFault>
    ensures { ReadCall R.left R.failures R.same input.old input.new result (SeesText result) }
{
    input.fill(1)?;
    Ok(input.bytes().is_empty())
}
