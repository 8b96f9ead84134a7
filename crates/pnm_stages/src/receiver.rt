//! The receiving end of a ring of messages.

ghost use Rattle.std.specs.Prelude.{◌<◌, length};
ghost use Rattle.std.specs.List.{AllByRecursion};
ghost use Rattle.pnm_image.specs.Messages.{IsMessage, EndsBy};
ghost use Rattle.pnm_image.specs.Packets.{messages_in, ending_of_packet};

use crate::ring::AnyMessage;
use crate::sender::Sender;
use crate::wakers::ReceiverWaker;
use pnm_image::{Ending, Packet};
use rtrb::Consumer;
use std::alloc::Global;
use std::sync::Wait;

/// The receiving end of a ring of messages. When it is dropped, it wakes the thread at the sending end, which then sees
/// that this end is gone.
#[derive(Drop)]
pub struct Receiver {
    /// The end itself. It is the first field, since it has to be gone before `waker` wakes the other thread.
    pub(crate) ring: Consumer<Packet, Global, AnyMessage>,
    waker: ReceiverWaker,
    /// Half the number of packets that the last look saw in the ring. It is narrow, since many ends lie on the stack of
    /// a thread that starts others.
    half: u32,
}

impl Receiver {
    ghost use Rattle.std.specs.Prelude.{◌≡◌, ◌<◌, List, [], ◌∷◌, ◌++◌, length, IfSome, IfNone, IsTrue, IsFalse};
    ghost use Rattle.std.specs.List.{AllByRecursion};
    ghost use Rattle.pnm_image.specs.Messages.{IsMessage, EndsBy};
    ghost use Rattle.pnm_image.specs.Packets.{messages_in, ending_of_packet};
    ghost use Rattle.pnm_image.specs.declared.packet.Packet.{Packet as PacketValue};
    ghost use Rattle.pnm_stages.specs.Rings.{sent, received, known_items, IsPair, SameSender, SameReceiver, HasDrained};
    ghost use Rattle.pnm_stages.specs.Rings.{known_packets, HasDrainedAfter};

    /// The receiving end over `ring`, with its part of the ring's wakers.
    pub(crate) fn new(ring: Consumer<Packet, Global, AnyMessage>, waker: ReceiverWaker) -> Receiver
        ensures { result.ring ≡ ring }
    {
        Receiver {
            ring,
            waker,
            half: 0,
        }
    }

    /// Whether a message is there.
    pub fn has_message(&mut self) -> bool
        ensures ring { SameReceiver self.old self.new }
        ensures received { received self.new ≡ received self.old }
        ensures some { IsTrue result → 0 < length (known_packets self.new) }
        ensures none { IsFalse result → known_items self.new ≡ [] }
        ensures empty { IsFalse result → known_packets self.new ≡ [] }
        // If one was seen before, it is there.
        ensures seen { IsFalse result → known_items self.old ≡ [] }
    {
        self.has_seen_message() || self.look()
    }

    /// Looks into the ring, once none of the messages that were seen is left. Returns whether there is a message.
    fn look(&mut self) -> bool
        ensures ring { SameReceiver self.old self.new }
        ensures received { received self.new ≡ received self.old }
        ensures some { IsTrue result → 0 < length (known_packets self.new) }
        ensures none { IsFalse result → known_items self.new ≡ [] }
        ensures empty { IsFalse result → known_packets self.new ≡ [] }
    {
        let seen = self.ring.slots();
        self.half = u32::try_from(seen / 2).unwrap_or(u32::MAX);
        seen > 0
    }

    /// Whether a message that was seen in the ring is still there. If so, the next one is received at once.
    pub fn has_seen_message(&self) -> bool
        ensures some { IsTrue result → 0 < length (known_packets self.now) }
        ensures none { IsFalse result → known_items self.now ≡ [] }
        ensures empty { IsFalse result → known_packets self.now ≡ [] }
    {
        self.ring.cached_slots() > 0
    }

    /// Returns the next packet, which has to be there, and leaves it in the ring.
    pub fn peek_known(&self) -> &Packet
        requires { 0 < length (known_packets self.now) }
        ensures next { (later : List PacketValue) × (known_packets self.now ≡ result.now ∷ later) }
        ensures ends { EndsBy (ending_of_packet result.now) (messages_in result.now) }
    {
        let packet = self.ring.peek_known();
        // No effect at run time: from this, a proof learns how the packet's messages end.
        recognise(packet);
        packet
    }

    /// Whether the sending end was dropped. What was sent before is still there.
    pub fn is_abandoned(&mut self) -> bool
        ensures ring { SameReceiver self.old self.new }
        ensures received { received self.new ≡ received self.old }
    {
        self.ring.is_abandoned()
    }

    /// Receives the next packet, which has to be there. It wakes the thread at the sending end when half of the packets
    /// that the last look saw are left, and when none is. So that thread is woken soon after it found no room, and
    /// seldom while it finds some.
    #[inline(always)]
    pub fn receive_known(&mut self) -> Packet
        requires { 0 < length (known_packets self.old) }
        ensures ring { SameReceiver self.old self.new }
        ensures received { received self.new ≡ received self.old ++ messages_in result }
        ensures seen { known_packets self.old ≡ result ∷ known_packets self.new }
        ensures some { 0 < length (messages_in result) }
        ensures messages { AllByRecursion IsMessage (messages_in result) }
        ensures ends { EndsBy (ending_of_packet result) (messages_in result) }
    {
        let packet = self.ring.pop_known();
        let left = self.ring.cached_slots();
        if left == 0 || left == self.half as usize {
            self.waker.wake_sender();
        }
        recognise(&packet);
        packet
    }

    /// Looks into the ring with both of its ends at hand. Afterwards, what was received and what is known to be left
    /// make up all that was sent.
    pub fn look_beside(&mut self, sender: &mut Sender)
        requires { IsPair sender.old self.old }
        ensures looked { SameReceiver self.old self.new × (received self.new ≡ received self.old) }
        ensures sender { SameSender sender.old sender.new × (sent sender.new ≡ sent sender.old) }
        ensures in_order { received self.new ++ known_items self.new ≡ sent sender.new }
    {
        self.ring.slots_beside(&mut sender.ring);
    }

    /// Receives the next packet, once there is one. Returns `None` once the ring is empty and its other end was seen
    /// dropped. Empty means that none of the messages that this end has seen is left.
    #[inline(always)]
    pub fn receive<R: Wait>(&mut self, rt: &R) -> Option<Packet>
        ensures ring { SameReceiver self.old self.new }
        ensures taken { IfSome result (λ p. received self.new ≡ received self.old ++ messages_in p) }
        ensures some { IfSome result (λ p. 0 < length (messages_in p)) }
        ensures messages { IfSome result (λ p. AllByRecursion IsMessage (messages_in p)) }
        ensures ends { IfSome result (λ p. EndsBy (ending_of_packet p) (messages_in p)) }
        ensures none_seen { IfNone result ((received self.new ≡ received self.old) × (known_items self.new ≡ [])) }
    {
        if self.has_message() || self.wait_for_message(rt) {
            return Some(self.receive_known());
        }
        None
    }

    /// Waits until a message is there. Returns false once the ring is empty and its other end was seen dropped. It is a
    /// function of its own, since `receive` mostly finds a message at once.
    #[inline(never)]
    pub(crate) fn wait_for_message<R: Wait>(&mut self, rt: &R) -> bool
        ensures ring { SameReceiver self.old self.new }
        ensures received { received self.new ≡ received self.old }
        ensures some { IsTrue result → 0 < length (known_packets self.new) }
        ensures none { IsFalse result → known_items self.new ≡ [] }
        ensures empty { IsFalse result → known_packets self.new ≡ [] }
    {
        for _ in rt.forever() {
            if self.has_message() {
                return true;
            }
            // What was sent before the end was dropped is still there.
            if self.is_abandoned() {
                return self.has_message();
            }
            self.wait(rt);
        }
        unreachable!()
    }

    /// Receives and drops what comes, through the end of the stream or Stop. Returns false if the sending end was seen
    /// dropped before that.
    fn drain<R: Wait>(&mut self, rt: &R) -> bool
        ensures ring { SameReceiver self.old self.new }
        ensures drained { HasDrained result (received self.old) (received self.new) (known_items self.new) }
    {
        for _ in rt.forever() {
            let Some(packet) = self.receive(rt) else {
                return false;
            };
            let ending = packet.ending();
            drop(packet);
            match ending {
                Ending::More => {}
                Ending::Whole | Ending::BrokenOff => return true,
            }
        }
        unreachable!()
    }

    /// After a message with this ending, receives and drops what comes, through the end of the stream or Stop. Returns
    /// false if the sending end was seen dropped before that.
    pub fn drain_after<R: Wait>(&mut self, rt: &R, ending: Ending) -> bool
        ensures ring { SameReceiver self.old self.new }
        ensures drained { HasDrainedAfter ending result (received self.old) (received self.new) (known_items self.new) }
    {
        match ending {
            Ending::More => self.drain(rt),
            Ending::Whole | Ending::BrokenOff => true,
        }
    }

    /// Waits once for a message. The caller looks again after each.
    pub fn wait<R: Wait>(&self, rt: &R) {
        self.waker.sleep(rt);
    }
}

/// No effect at run time: from this, a proof learns that the packet is a message at least, that the head of an image
/// keeps the rules of heads, and that only the last message may end the stream.
#[inline(always)]
fn recognise(packet: &Packet)
    ensures some { 0 < length (messages_in packet.now) }
    ensures messages { AllByRecursion IsMessage (messages_in packet.now) }
    ensures ends { EndsBy (ending_of_packet packet.now) (messages_in packet.now) }
{
    let Packet::Part(part) = packet else {
        return;
    };
    let Some(head) = part.parts().0 else {
        return;
    };
    let _ = head.shape();
}
