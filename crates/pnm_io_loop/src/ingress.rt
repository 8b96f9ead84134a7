//! What comes before the tools of a run: the source, and the ring that its messages go into.

ghost use Rattle.std.specs.Prelude.{◌≡◌, ◌<◌, ◌≤◌, List, IsTrue, IsFalse, true, false, Some, None};
ghost use Rattle.pnm_stages.specs.Rings.{sent, known_free, kept_free, SameSender};
ghost use Rattle.pnm_image.specs.declared.message.Message.{Message as MessageValue};
ghost use Rattle.pnm_read.specs.Sources.{reader_of, has_ended, stopped_by};
ghost use Rattle.pnm_read.specs.Sources.{IsFreshSource as IsUnread};
ghost use Rattle.pnm_read.specs.declared.fault.InputFault.{InputFault as Fault};

use crate::image_count::count_image;
use pnm_image::{BytesIn, Packet};
use pnm_read::{InputFault, Source, SpareRows};
use pnm_stages::Sender;
use std::sync::Wait;

/// So many packets are sent at once at most, beside the first.
const MOST_PACKETS: u32 = 64;

/// The source of a run, and the ring that its messages go into.
#[derive(Drop)]
pub struct Ingress<R> {
    /// The source, which is asked for one packet after another.
    pub source: Source<R>,
    /// The end of the ring that the messages are sent on.
    pub output: Sender,
    /// How the source has ended, once it has. After a fault Stop was sent.
    pub input: Option<Result<(), InputFault>>,
    /// Whether the ring's other end was seen dropped.
    is_gone: bool,
    /// How many images have had their end sent, up to `u64::MAX`.
    images: u64,
}

impl<R: BytesIn + Drop> Ingress<R> {
    ghost use Rattle.pnm_io_loop.specs.Ingresses.{IsIngress, HasSentMore, ingress_is_over};
    ghost use Rattle.pnm_io_loop.specs.Internal.Ingresses.{HasGoneOn};

    /// An ingress that has sent nothing yet. Of short packets it sends a few before it wakes the first tool
    /// (`wake_receiver`).
    pub fn new(source: Source<R>, output: Sender) -> Ingress<R>
        requires { IsUnread (reader_of source) source }
        ensures sending { IsIngress R.left R.failures source (sent output) result }
        ensures parts { (result.source ≡ source) × SameSender output result.output
            × (sent result.output ≡ sent output) }
    {
        let mut output = output;
        output.coalesce_wakes();
        Ingress {
            source,
            output,
            input: None,
            is_gone: false,
            images: 0,
        }
    }

    /// Whether there is nothing more to send: the end of the stream was sent, or Stop after a fault of the input, or
    /// the ring's other end was seen dropped.
    pub fn is_over(&self) -> bool
        ensures { result ≡ ingress_is_over self.now }
    {
        self.is_gone || self.input.is_some()
    }

    /// How many images have had their end sent, up to `u64::MAX`.
    pub fn images(&self) -> u64
        ensures { result ≡ self.now.images }
    {
        self.images
    }

    /// Whether the source may have to wait for its reader if it is asked for the next packet.
    pub fn would_read(&self) -> bool
        // After the end and after a fault nothing is read.
        ensures ended { has_ended self.now.source ≡ true → result ≡ false }
        ensures stopped { (fault : Fault) → stopped_by self.now.source ≡ Some fault → result ≡ false }
    {
        !self.source.holds_next()
    }

    /// Wakes the first tool's thread, if something was sent since this end last woke it.
    pub fn wake_receiver(&mut self)
        ensures sending { (first : Source R) (before : List MessageValue)
            → IsIngress R.left R.failures first before self.old
            → IsIngress R.left R.failures first before self.new }
        ensures ring { SameSender self.old.output self.new.output }
        ensures same_device { R.same (reader_of self.old.source) (reader_of self.new.source) }
        ensures over { ingress_is_over self.new ≡ ingress_is_over self.old }
    {
        self.output.wake_receiver();
    }

    /// Waits once for room in the ring.
    pub fn wait<H: Wait>(&mut self, rt: &H)
        ensures sending { (first : Source R) (before : List MessageValue)
            → IsIngress R.left R.failures first before self.old
            → IsIngress R.left R.failures first before self.new }
        ensures ring { SameSender self.old.output self.new.output }
        ensures same_device { R.same (reader_of self.old.source) (reader_of self.new.source) }
    {
        self.output.wait(rt);
    }

    /// Asks the source for its next packet and sends it, if there is room for it in the ring; and so on, while there is
    /// and the source holds the next one, for as many as are sent at once. Short rows are made of spare ones. Returns
    /// false if there is no room for the first, and the ring's other end wasn't seen dropped.
    pub fn try_send(&mut self, spares: &mut SpareRows) -> bool
        requires going { ingress_is_over self.old ≡ false }
        ensures sending { (first : Source R) (before : List MessageValue)
            → IsIngress R.left R.failures first before self.old
            → IsIngress R.left R.failures first before self.new }
        ensures ring { SameSender self.old.output self.new.output }
        ensures same_device { R.same (reader_of self.old.source) (reader_of self.new.source) }
        ensures goes_on { IsTrue result → HasSentMore self.old self.new }
        ensures none { IsFalse result → known_free self.old.output ≤ kept_free self.old.output }
    {
        if !self.output.has_room() {
            self.is_gone = self.output.is_abandoned();
            return self.is_gone;
        }
        self.send_next(spares);
        self.send_held(spares);
        true
    }

    /// Sends what the source holds, as far as there is room for it.
    fn send_held(&mut self, spares: &mut SpareRows)
        ensures sending { (first : Source R) (before : List MessageValue)
            → IsIngress R.left R.failures first before self.old
            → IsIngress R.left R.failures first before self.new }
        ensures ring { SameSender self.old.output self.new.output }
        ensures same_device { R.same (reader_of self.old.source) (reader_of self.new.source) }
        ensures goes_on { (start : Ingress R) → HasGoneOn start self.old → HasGoneOn start self.new }
    {
        for _ in 0..MOST_PACKETS {
            if self.input.is_some() || self.would_read() {
                return;
            }
            if !self.output.has_room() {
                return;
            }
            self.send_next(spares);
        }
    }

    /// Asks the source for its next packet and sends it; there has to be room for it. After the source's fault Stop is
    /// sent.
    fn send_next(&mut self, spares: &mut SpareRows)
        requires going { self.old.input ≡ None }
        requires room { 0 < known_free self.old.output }
        ensures sending { (first : Source R) (before : List MessageValue)
            → IsIngress R.left R.failures first before self.old
            → IsIngress R.left R.failures first before self.new }
        ensures ring { SameSender self.old.output self.new.output }
        ensures same_device { R.same (reader_of self.old.source) (reader_of self.new.source) }
        ensures goes_on { HasGoneOn self.old self.new }
    {
        match self.source.next(spares) {
            Ok(Some(packet)) => {
                count_image(&mut self.images, &packet);
                self.output.send_reserved(packet);
            }
            Ok(None) => self.input = Some(Ok(())),
            Err(fault) => {
                self.output.send_reserved(Packet::Stop);
                self.input = Some(Err(fault));
            }
        }
    }

    /// Returns the reader, the ring's end, and how the source has ended: `None` if the ring's other end was seen
    /// dropped before that.
    pub fn into_parts(self) -> (R, Sender, Option<Result<(), InputFault>>)
        ensures { (result.0 ≡ reader_of self.source) × (result.1 ≡ self.output) × (result.2 ≡ self.input) }
    {
        let Ingress {
            source,
            output,
            input,
            ..
        } = self;
        (source.into_reader(), output, input)
    }
}
