//! Lanes whose messages are no longer wanted: they are taken and dropped, from whichever lane has some.

ghost use Rattle.std.specs.Prelude.{◌≡◌, ◌<◌, ◌≤◌, length, IfSome};
ghost use Rattle.pnm_stages.specs.Rings.{received, known_items, SameReceiver};
ghost use Rattle.pnm_image.specs.Packets.{ending_of_packet};
ghost use Rattle.pnm_lanes.specs.Gathers.{at_lane, AreSameInputs};
ghost use Rattle.pnm_lanes.specs.Internal.GatherParts.{HasDrainedOne, CarriesOn, HasDrainedAll, AreDone, state_by};

use crate::lane::LaneState;
use pnm_image::{Ending, Packet};
use pnm_stages::{Receiver, Sender};
use std::sync::Wait;

/// Takes and drops what comes from the lanes that haven't ended, each through the end of its stream or Stop. It tries
/// them in turn, and waits for none of them alone: it sleeps at the output, the home of their sending ends. Returns
/// false if a lane's other end was seen dropped before that.
pub fn drain_all<R: Wait>(
    rt: &R,
    inputs: &mut [Receiver],
    states: &mut [LaneState],
    output: &Sender,
) -> bool
    requires some { 1 ≤ length inputs.old }
    requires states { length inputs.old ≡ length states.old }
    ensures inputs { AreSameInputs inputs.old inputs.new }
    ensures drained { HasDrainedAll (length inputs.old) result states.old states.new (at_lane received inputs.old)
        (at_lane received inputs.new) (at_lane known_items inputs.old) (at_lane known_items inputs.new) }
{
    for _ in rt.forever() {
        let has_moved = drain_round(inputs, states);
        if let Some(have_ended) = outcome(states) {
            return have_ended;
        }
        if !has_moved {
            output.sleep(rt);
        }
    }
    unreachable!()
}

/// Tries each lane that hasn't ended once. Returns whether one had a message, or its other end was seen dropped.
fn drain_round(inputs: &mut [Receiver], states: &mut [LaneState]) -> bool
    requires { length inputs.old ≡ length states.old }
    ensures inputs { AreSameInputs inputs.old inputs.new }
    ensures carried { CarriesOn (length inputs.old) states.old states.new (at_lane received inputs.old)
        (at_lane received inputs.new) (at_lane known_items inputs.old) (at_lane known_items inputs.new) }
{
    let mut has_moved = false;
    for lane in 0..inputs.len() {
        has_moved = drain_lane(inputs, states, lane) || has_moved;
    }
    has_moved
}

/// Tries a lane once, unless it has ended. Returns whether it had a message, or its other end was seen dropped.
fn drain_lane(inputs: &mut [Receiver], states: &mut [LaneState], lane: usize) -> bool
    requires lane { lane < length inputs.old }
    requires states { length inputs.old ≡ length states.old }
    ensures inputs { AreSameInputs inputs.old inputs.new }
    ensures carried { CarriesOn (length inputs.old) states.old states.new (at_lane received inputs.old)
        (at_lane received inputs.new) (at_lane known_items inputs.old) (at_lane known_items inputs.new) }
{
    if states[lane] != LaneState::Open {
        return false;
    }
    match drain_one(&mut inputs[lane]) {
        Some(state) => {
            states[lane] = state;
            true
        }
        None => false,
    }
}

/// Takes and drops the next message, if there is one, and returns the lane's state after it. Returns `Gone` if the ring
/// is empty and its other end was seen dropped, and `None` if there is no message yet.
fn drain_one(input: &mut Receiver) -> Option<LaneState>
    ensures ring { SameReceiver input.old input.new }
    ensures drained { HasDrainedOne result (received input.old) (received input.new) (known_items input.new) }
{
    if input.has_message() {
        return Some(state_after(&input.receive_known()));
    }
    if !input.is_abandoned() {
        return None;
    }
    // What was sent before the end was dropped is still there.
    if input.has_message() {
        return Some(state_after(&input.receive_known()));
    }
    Some(LaneState::Gone)
}

/// The state of a lane after this packet.
pub fn state_after(packet: &Packet) -> LaneState
    ensures { result ≡ state_by (ending_of_packet packet.now) }
{
    match packet.ending() {
        Ending::More => LaneState::Open,
        Ending::Whole | Ending::BrokenOff => LaneState::Ended,
    }
}

/// Returns whether all lanes have ended, once no lane is open any more, and `None` before.
fn outcome(states: &[LaneState]) -> Option<bool>
    ensures done { IfSome result (λ ended. AreDone ended states.now) }
{
    let mut have_ended = true;
    for state in states {
        match state {
            LaneState::Open => return None,
            LaneState::Ended => {}
            LaneState::Gone => have_ended = false,
        }
    }
    Some(have_ended)
}
