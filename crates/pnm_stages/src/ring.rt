//! The rings between stages: what passes over them, how many packets they hold, and how they are made. An end of a ring
//! *hangs up* when it is dropped. The other end may see that only after a while: after it found no message, or no room.

ghost use Rattle.std.specs.Prelude.{◌≡◌, [], IfSome};
ghost use Rattle.pnm_stages.specs.Rings.{sent, received, IsPair};

use crate::receiver::Receiver;
use crate::sender::Sender;
use crate::wakers::new_wakers;
use pnm_image::Packet;
use rtrb::{Protocol, RingBuffer};
use std::alloc::Global;

/// The most packets that a ring of a run may hold.
pub const MAX_RING_CAPACITY: usize = 1_024;

/// The protocol of the rings between stages: every packet may follow every other.
#[derive(Clone, Copy)]
pub struct AnyMessage;

impl Protocol<Packet> for AnyMessage {
    ghost allows = { λ _ _. Unit {0} };
}

/// Makes a ring for `capacity` packets, and returns its two ends. Returns `None` if there is no memory.
pub fn new_ring(alloc: Global, capacity: usize) -> Option<(Sender, Receiver)>
    ensures pair { IfSome result (λ ends. IsPair ends.0 ends.1) }
    ensures unused { IfSome result (λ ends. (sent ends.0 ≡ []) × (received ends.1 ≡ [])) }
{
    let (sender_waker, receiver_waker) = new_wakers(alloc)?;
    let Ok((producer, consumer)) = RingBuffer::with_protocol::<Global, AnyMessage>(alloc, capacity)
    else {
        return None;
    };
    Some((
        Sender::new(producer, sender_waker),
        Receiver::new(consumer, receiver_waker),
    ))
}
