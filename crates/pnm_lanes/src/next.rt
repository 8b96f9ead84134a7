//! What comes next of the whole stream, put together of what the lanes have given.

ghost use Rattle.std.specs.Prelude.{◌≡◌, ◌<◌, ◌≤◌, ◌%◌, ℕ, List, length, OnOk};
ghost use Rattle.pnm_image.specs.declared.message.Message.{Message};
ghost use Rattle.pnm_image.specs.declared.place.Place.{Place as PlaceValue};
ghost use Rattle.pnm_stages.specs.Rings.{received};
ghost use Rattle.pnm_lanes.specs.Gathers.{at_lane, AreSameInputs};
ghost use Rattle.pnm_lanes.specs.Internal.GatherParts.{AreHolding, HasFilled, HasTakenNext, HoldEach, HoldNext};
ghost use Rattle.pnm_lanes.specs.Internal.HeldMessages.{in_held};

use crate::held::Held;
use crate::lane::{LaneState, MAX_LANES, fill};
use crate::together::{OUT_OF_ORDER, put_together};
use pnm_image::{Packet, Place};
use pnm_stages::{Receiver, StageEnd};
use std::alloc::Global;
use std::sync::Wait;

/// Receives what comes next of the whole stream, and goes on to the place after it. Returns `Broken` if a lane gives
/// Stop, and `Fault` if the lanes don't agree, if something is out of place, or if there is no memory for rows
/// together. Returns `PeerGone` if a lane's other end was seen dropped before.
pub fn receive_next<R: Wait>(
    rt: &R,
    alloc: Global,
    inputs: &mut [Receiver],
    states: &mut [LaneState],
    held: &mut [Held],
    place: &mut Place,
) -> Result<Packet, StageEnd>
    requires some { 1 ≤ length inputs.old }
    requires few { length inputs.old ≤ MAX_LANES }
    requires states { length inputs.old ≤ length states.old }
    requires held { length inputs.old ≡ length held.old }
    ensures inputs { AreSameInputs inputs.old inputs.new }
    ensures taken { (passed : ℕ → List Message)
        → AreHolding (length inputs.old) states.old passed (at_lane received inputs.old) held.old
        → HasTakenNext (length inputs.old) place.old place.new result states.new passed
        (at_lane received inputs.new) held.new }
    ensures as_many { (length states.new ≡ length states.old) × (length held.new ≡ length held.old) }
{
    await_lanes(rt, alloc, inputs, states, held, *place)?;
    let packet = put_together(alloc, held, *place)?;
    let Some(next) = place.after(&packet) else {
        return Err(OUT_OF_ORDER);
    };
    *place = next;
    Ok(packet)
}

/// Receives of each lane from which something comes next, if nothing is held of it.
fn await_lanes<R: Wait>(
    rt: &R,
    alloc: Global,
    inputs: &mut [Receiver],
    states: &mut [LaneState],
    held: &mut [Held],
    place: Place,
) -> Result<(), StageEnd>
    requires some { 1 ≤ length inputs.old }
    requires states { length inputs.old ≤ length states.old }
    requires held { length inputs.old ≡ length held.old }
    ensures inputs { AreSameInputs inputs.old inputs.new }
    ensures filled { (passed : ℕ → List Message)
        → AreHolding (length inputs.old) states.old passed (at_lane received inputs.old) held.old
        → HasFilled (length inputs.old) place result states.new passed (at_lane received inputs.new) held.new }
    ensures next { OnOk result (HoldNext (length inputs.old) place held.new) }
    ensures as_many { (length states.new ≡ length states.old) × (length held.new ≡ length held.old) }
{
    match place {
        Place::Inside(shape, y) if y < shape.height => await_row(
            rt, alloc, inputs, states, held, y,
        ),
        _ => fill_each(rt, alloc, inputs, states, held),
    }
}

/// Receives of the lane of row `y`. If that gives the row with others, or with the end of the image, each of the other
/// lanes was dealt its part of these, and is received of, too.
fn await_row<R: Wait>(
    rt: &R,
    alloc: Global,
    inputs: &mut [Receiver],
    states: &mut [LaneState],
    held: &mut [Held],
    y: u32,
) -> Result<(), StageEnd>
    requires some { 1 ≤ length inputs.old }
    requires states { length inputs.old ≤ length states.old }
    requires held { length inputs.old ≡ length held.old }
    ensures inputs { AreSameInputs inputs.old inputs.new }
    ensures filled { (place : PlaceValue) (passed : ℕ → List Message)
        → AreHolding (length inputs.old) states.old passed (at_lane received inputs.old) held.old
        → HasFilled (length inputs.old) place result states.new passed (at_lane received inputs.new) held.new }
    ensures row { OnOk result (1 ≤ length (at_lane in_held held.new (y % length inputs.old))) }
    ensures as_many { (length states.new ≡ length states.old) × (length held.new ≡ length held.old) }
{
    let lane = y as usize % inputs.len();
    fill(rt, alloc, inputs, states, held, lane)?;
    if held[lane].are_rows_together() {
        return fill_each(rt, alloc, inputs, states, held);
    }
    Ok(())
}

/// Receives from each lane of which nothing is held.
fn fill_each<R: Wait>(
    rt: &R,
    alloc: Global,
    inputs: &mut [Receiver],
    states: &mut [LaneState],
    held: &mut [Held],
) -> Result<(), StageEnd>
    requires states { length inputs.old ≤ length states.old }
    requires held { length inputs.old ≡ length held.old }
    ensures inputs { AreSameInputs inputs.old inputs.new }
    ensures filled { (place : PlaceValue) (passed : ℕ → List Message)
        → AreHolding (length inputs.old) states.old passed (at_lane received inputs.old) held.old
        → HasFilled (length inputs.old) place result states.new passed (at_lane received inputs.new) held.new }
    ensures each { OnOk result (HoldEach (length inputs.old) held.new) }
    ensures as_many { (length states.new ≡ length states.old) × (length held.new ≡ length held.old) }
{
    for lane in 0..inputs.len() {
        fill(rt, alloc, inputs, states, held, lane)?;
    }
    Ok(())
}
