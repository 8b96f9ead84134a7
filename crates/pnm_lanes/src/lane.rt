//! A lane whose messages are gathered: what is received of it, and whether it has ended.

ghost use Rattle.std.specs.Prelude.{◌≡◌, ◌<◌, ◌≤◌, ℕ, List, [], length, OnOk};
ghost use Rattle.pnm_image.specs.declared.message.Message.{Message};
ghost use Rattle.pnm_image.specs.declared.place.Place.{Place};
ghost use Rattle.pnm_stages.specs.Rings.{received};
ghost use Rattle.pnm_lanes.specs.Gathers.{at_lane, AreSameInputs};
ghost use Rattle.pnm_lanes.specs.Internal.GatherParts.{AreHolding, HasFilled};
ghost use Rattle.pnm_lanes.specs.Internal.HeldMessages.{in_held};

use crate::drain::state_after;
use crate::held::{Held, Next};
use pnm_stages::{Receiver, StageEnd};
use pnm_tools::ToolFault;
use std::alloc::Global;
use std::sync::Wait;

/// The most lanes of a tool.
pub const MAX_LANES: usize = 8;

/// There is no memory for rows that are put together.
pub const OUT_OF_MEMORY: StageEnd = StageEnd::Fault(ToolFault::Memory);

/// What is known of a lane.
#[derive(Clone, Copy, PartialEq, Eq)]
pub enum LaneState {
    /// It hasn't ended yet.
    Open,
    /// The end of its stream, or Stop, was taken.
    Ended,
    /// Its other end was seen dropped before, and nothing is left.
    Gone,
}

/// Receives what comes next of a lane, if nothing is held of it. Returns `Broken` if that is Stop, and `Fault` if there
/// is no memory for rows that repeat. Returns `PeerGone` once the lane's ring is empty and its other end was seen
/// dropped.
pub fn fill<R: Wait>(
    rt: &R,
    alloc: Global,
    inputs: &mut [Receiver],
    states: &mut [LaneState],
    held: &mut [Held],
    lane: usize,
) -> Result<(), StageEnd>
    requires lane { lane < length inputs.old }
    requires states { length inputs.old ≤ length states.old }
    requires held { length inputs.old ≡ length held.old }
    ensures inputs { AreSameInputs inputs.old inputs.new }
    ensures filled { (place : Place) (passed : ℕ → List Message)
        → AreHolding (length inputs.old) states.old passed (at_lane received inputs.old) held.old
        → HasFilled (length inputs.old) place result states.new passed (at_lane received inputs.new) held.new }
    ensures holds { OnOk result (1 ≤ length (at_lane in_held held.new lane)) }
    ensures others { OnOk result ((other : ℕ) → 1 ≤ length (at_lane in_held held.old other)
        → 1 ≤ length (at_lane in_held held.new other)) }
    ensures as_many { (length states.new ≡ length states.old) × (length held.new ≡ length held.old) }
{
    if held[lane].next() != Next::Nothing {
        return Ok(());
    }
    let Some(packet) = inputs[lane].receive(rt) else {
        return Err(StageEnd::PeerGone);
    };
    states[lane] = state_after(&packet);
    let Ok(given) = Held::of(alloc, packet) else {
        return Err(OUT_OF_MEMORY);
    };
    let next = given.next();
    held[lane] = given;
    if next == Next::Stop {
        return Err(StageEnd::Broken);
    }
    Ok(())
}
