//! The sending end of a ring of messages.

ghost use Rattle.std.specs.Prelude.{◌≡◌, ◌<◌, ◌≤◌, ◌++◌, IsTrue, IsFalse};
ghost use Rattle.pnm_image.specs.Packets.{messages_in};
ghost use Rattle.pnm_stages.specs.Rings.{sent, known_free, kept_free, SameSender};

use crate::ring::AnyMessage;
use crate::wakers::SenderWaker;
use pnm_image::Packet;
use rtrb::Producer;
use std::alloc::Global;
use std::sync::Wait;

/// The most short messages that are sent before the thread at the receiving end is woken for them. To wake a sleeping
/// thread costs as much as to make some of them, and so few are soon made.
const MOST_MESSAGES: u16 = 32;

/// A row of fewer bytes is short, as are the messages around rows: some of them are made in less time than a sleeping
/// thread takes to wake.
const SHORT: usize = 1_024;

/// A row of more bytes is wide. Wide rows in a ring, if all are as wide as the last, have no more bytes at once than
/// this number times the ring's places. So what passes stays in the processors' own caches, and a slow reader doesn't
/// make a run take memory without end.
const BYTES_PER_PLACE: usize = 16_384;

/// But this many rows may lie in a ring, however wide they are, so that the threads at both ends have something to do.
const LEAST_ROWS: usize = 2;

/// Rows together of no more bytes are short as well, as is an image of such rows: they are soon made, since their bytes
/// are only copied.
const FEW_TOGETHER: usize = 4_096;

/// The sending end of a ring of messages. When it is dropped, it wakes the thread at the receiving end, which then sees
/// that this end is gone.
#[derive(Drop)]
pub struct Sender {
    /// The end itself. It is the first field, since it has to be gone before `waker` wakes the other thread.
    pub(crate) ring: Producer<Packet, Global, AnyMessage>,
    waker: SenderWaker,
    /// How many packets were sent since this end last woke the receiver, and for how many short ones it wakes it. Both
    /// numbers are narrow, since each level of a chain's starts holds a few ends.
    unwoken: u16,
    messages_per_wake: u16,
    /// How many places stay free because the row that was sent last is wide.
    kept_free: u32,
}

impl Sender {
    /// The sending end over `ring`, with its part of the ring's wakers. Each message that it sends wakes the other
    /// end's thread.
    pub(crate) fn new(ring: Producer<Packet, Global, AnyMessage>, waker: SenderWaker) -> Sender
        ensures { result.ring ≡ ring }
    {
        Sender {
            ring,
            waker,
            unwoken: 0,
            messages_per_wake: 1,
            kept_free: 0,
        }
    }

    /// From now on, wakes the thread at the receiving end once for several short messages, for half of the ring at
    /// most, and at the end of the stream. So this end's thread has to wake it for the rest (`wake_receiver`) before it
    /// waits for anything but room in this ring.
    pub fn coalesce_wakes(&mut self)
        ensures ring { SameSender self.old self.new }
        ensures sent { sent self.new ≡ sent self.old }
    {
        let half = u16::try_from(self.ring.capacity() / 2).unwrap_or(MOST_MESSAGES);
        self.messages_per_wake = half.min(MOST_MESSAGES);
    }

    /// Makes `home`, the sending end of another ring, the home of this ring's receiver. From now on, the thread at the
    /// receiving end is woken there, too, before this end's thread sleeps for want of room, when it ends the stream,
    /// and when this end is dropped. That thread sends on the ring of `home`, so it may sleep there while this ring is
    /// full, or has all that will come. Returns false if that ring's wakers have too many owners; then the receiver has
    /// no home, not even an earlier one.
    pub fn set_home(&mut self, home: &Sender) -> bool
        ensures ring { SameSender self.old self.new }
        ensures sent { sent self.new ≡ sent self.old }
    {
        self.waker.set_home(&home.waker)
    }

    /// Wakes the thread at the receiving end, if something was sent since this end last woke it.
    pub fn wake_receiver(&mut self)
        ensures ring { SameSender self.old self.new }
        ensures sent { sent self.new ≡ sent self.old }
        ensures room { known_free self.new ≡ known_free self.old }
    {
        if self.unwoken > 0 {
            self.unwoken = 0;
            self.waker.wake_receiver();
        }
    }

    /// Whether there is room for a message: more places of the ring are free than have to stay free because of a wide
    /// row.
    pub fn has_room(&mut self) -> bool
        ensures ring { SameSender self.old self.new }
        ensures sent { sent self.new ≡ sent self.old }
        ensures room { IsTrue result → 0 < known_free self.new }
        ensures none { IsFalse result → known_free self.new ≤ kept_free self.new }
        // If this end knew of room, there is some.
        ensures known { IsFalse result → known_free self.old ≤ kept_free self.old }
        ensures kept { kept_free self.new ≡ kept_free self.old }
    {
        let kept_free = self.kept_free as usize;
        self.ring.cached_slots() > kept_free || self.ring.slots() > kept_free
    }

    /// Whether the receiving end was dropped.
    pub fn is_abandoned(&mut self) -> bool
        ensures ring { SameSender self.old self.new }
        ensures sent { sent self.new ≡ sent self.old }
    {
        self.ring.is_abandoned()
    }

    /// Sends the packet, for which there has to be room, and wakes the thread at the receiving end, unless that wake is
    /// held back (`coalesce_wakes`).
    #[inline(always)]
    pub fn send_reserved(&mut self, packet: Packet)
        requires { 0 < known_free self.old }
        ensures ring { SameSender self.old self.new }
        ensures sent { sent self.new ≡ sent self.old ++ messages_in packet }
    {
        let bytes = bytes_of(&packet);
        self.ring.push_reserved(packet);
        self.unwoken = self.unwoken.saturating_add(1);
        if let Some(bytes) = bytes {
            self.kept_free = places_beyond(self.ring.capacity(), bytes);
            if bytes < SHORT && self.unwoken < self.messages_per_wake {
                return;
            }
        } else {
            self.waker.wake_home();
        }
        self.wake_receiver();
    }

    /// Sends the packet, once there is room. Returns false, and the packet is lost, if there is none and the receiving
    /// end was seen dropped.
    #[inline(always)]
    pub fn send<R: Wait>(&mut self, rt: &R, packet: Packet) -> bool
        ensures ring { SameSender self.old self.new }
        ensures given { IsTrue result → sent self.new ≡ sent self.old ++ messages_in packet }
        ensures gone { IsFalse result → sent self.new ≡ sent self.old }
    {
        let room = self.has_room() || self.wait_for_room(rt);
        if room {
            self.send_reserved(packet);
        }
        room
    }

    /// Waits until there is room. Returns false if there is none and the receiving end was seen dropped. It is a
    /// function of its own, since `send` mostly finds room at once.
    #[inline(never)]
    fn wait_for_room<R: Wait>(&mut self, rt: &R) -> bool
        ensures ring { SameSender self.old self.new }
        ensures sent { sent self.new ≡ sent self.old }
        ensures room { IsTrue result → 0 < known_free self.new }
    {
        for _ in rt.forever() {
            if self.has_room() {
                return true;
            }
            if self.is_abandoned() {
                return false;
            }
            self.wait(rt);
        }
        unreachable!()
    }

    /// Waits once for room. The caller looks again after each.
    pub fn wait<R: Wait>(&mut self, rt: &R)
        ensures ring { SameSender self.old self.new }
        ensures sent { sent self.new ≡ sent self.old }
    {
        self.wake_receiver();
        self.sleep(rt);
    }

    /// Waits once at this end for something else than room, as for the senders that have it as their home. It
    /// wakes nobody for messages whose wake-up was put off.
    pub fn sleep<R: Wait>(&self, rt: &R) {
        self.waker.sleep(rt);
    }
}

/// How many bytes the rows of a part take as they are held, or 0 for short rows together and small images
/// (`FEW_TOGETHER`). Returns `None` for a message that ends the stream, since that is waited for.
fn bytes_of(packet: &Packet) -> Option<usize> {
    let Packet::Part(part) = packet else {
        return None;
    };
    let (head, rows, ends_image) = part.parts();
    let Some(rows) = rows else {
        return Some(0);
    };
    let (held, times) = rows.parts();
    let bytes = held.as_slice().bytes();
    let are_together = held.count() > 1 || head.is_some() && ends_image;
    let are_few = times == 1 && are_together && bytes <= FEW_TOGETHER;
    Some(if are_few { 0 } else { bytes })
}

/// How many of a ring's `capacity` places stay free next to rows of `bytes` bytes.
fn places_beyond(capacity: usize, bytes: usize) -> u32 {
    if bytes <= BYTES_PER_PLACE {
        return 0;
    }
    let most = capacity.saturating_mul(BYTES_PER_PLACE) / bytes;
    u32::try_from(capacity.saturating_sub(most.max(LEAST_ROWS))).unwrap_or(u32::MAX)
}
