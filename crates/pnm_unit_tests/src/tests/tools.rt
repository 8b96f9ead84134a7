//! Tools of the tests, and what is wanted of them.

use super::{holds, same};
use pnm_image::{Message, Packet};
use pnm_test_support::Unmade;
use pnm_tools::{CutBox, Filter, Planes, Tool, ToolFault};
use std::alloc::Global;
use std::process::Abort;

/// A cut that keeps all.
pub(super) const WHOLE: CutBox = CutBox {
    left: None,
    right: None,
    top: None,
    bottom: None,
    width: None,
    height: None,
};

/// Returns the tool that picks these planes.
pub(super) fn channel(alloc: Global, numbers: &[u16], tuple_type: &str) -> Result<Tool, Unmade> {
    Ok(Tool::Channel(Planes::new(
        Vec::from_slice(alloc, numbers)?,
        Vec::from_slice(alloc, tuple_type.as_bytes())?,
    )))
}

/// Asserts that the tool picks these planes.
pub(super) fn picks(rt: &impl Abort, tool: &Tool, numbers: &[u16], tuple_type: &str) {
    match tool {
        Tool::Channel(planes) => {
            same(rt, &planes.numbers(), &numbers, tool);
            same(rt, &planes.tuple_type(), &tuple_type.as_bytes(), tool);
        }
        _ => holds(rt, false, tool, &numbers, &tuple_type),
    }
}

/// Asserts that the state answers nothing but this fault, whatever it is asked.
pub(super) fn stays<F: Filter>(rt: &impl Abort, state: &mut F, fault: ToolFault) {
    refuses_again(rt, state, Packet::StreamEnd, fault);
    refuses_again(rt, state, Packet::Stop, fault);
    refuses_again(rt, state, Packet::from(Message::ImageEnd), fault);
}

/// Asserts that the state gives nothing but this fault, and answers this packet with it.
fn refuses_again<F: Filter>(rt: &impl Abort, state: &mut F, packet: Packet, fault: ToolFault) {
    let answer = state.next();
    let is_so = matches!(&answer, Err(other) if *other == fault);
    holds(rt, is_so, &answer, &fault, &"next");
    let answer = state.feed(packet);
    let is_so = matches!(&answer, Ok(Err(other)) if *other == fault);
    holds(rt, is_so, &answer, &fault, &"feed");
}
