//! Rings that hold messages, and what comes out of them.

use super::is_so;
use pnm_flow::{AnyMessage, Message, Packet, Receiver, Sender, new_ring};
use pnm_test_support::{Part, are_made_of, message};
use std::alloc::Global;
use std::process::Abort;

/// A ring of capacity 8.
pub fn ring(rt: &impl Abort, alloc: Global) -> (Sender, Receiver) {
    new_ring(alloc, 8).expect(rt, "a ring")
}

/// Sends the message, if there is room. Returns whether there was.
fn send(sender: &mut Sender, message: Message) -> bool {
    if sender.has_room() {
        sender.send_reserved(Packet::from(message));
        return true;
    }
    false
}

/// A ring of capacity 8 that holds these, and its sending end.
pub fn holding(rt: &impl Abort, alloc: Global, parts: &[Part<'_>]) -> (Sender, Receiver) {
    let (mut sender, receiver) = ring(rt, alloc);
    for part in parts {
        let message = message(alloc, *part).expect(rt, "a message");
        is_so(rt, send(&mut sender, message), part);
    }
    (sender, receiver)
}

/// Receives the next message. Returns whether there was one, and it is made of this.
fn receives(receiver: &mut Receiver, part: Part<'_>) -> bool {
    if !receiver.has_message() {
        return false;
    }
    are_made_of(&receiver.receive_known(), &[part], &mut 0)
}

/// The ring holds these, and nothing more.
pub fn holds(rt: &impl Abort, receiver: &mut Receiver, parts: &[Part<'_>]) {
    for part in parts {
        is_so(rt, receives(receiver, *part), part);
    }
    is_so(rt, !receiver.has_message(), &"nothing more");
}

/// The protocol of the rings allows every message after every other.
#[test]
fn rings_allow_every_message(rt: HostRuntime) {
    let _protocol = AnyMessage;
    let parts = [Part::StreamEnd, Part::Stop, Part::ImageEnd, Part::Row(&[1])];
    let (_sender, mut receiver) = holding(&rt, rt.alloc(), &parts);
    holds(&rt, &mut receiver, &parts);
}
