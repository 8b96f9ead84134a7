//! Gathering: the messages of lanes put together again, as those of the images whose rows were dealt to the lanes.

ghost use Rattle.std.specs.Prelude.{◌≡◌, ◌≤◌, [], length};
ghost use Rattle.std.specs.List.{AllByRecursion};
ghost use Rattle.pnm_stages.specs.Rings.{sent, received, known_items, SameSender};
ghost use Rattle.pnm_lanes.specs.LaneLimits.{IsLaneCount};
ghost use Rattle.pnm_lanes.specs.Gathers.{at_lane, AreSameInputs, HasGathered};
ghost use Rattle.pnm_lanes.specs.Internal.GatherParts.{HasBrokenOffAll};
ghost use Rattle.pnm_lanes.specs.Internal.HeldMessages.{in_held};

use crate::drain::drain_all;
use crate::held::Held;
use crate::lane::{LaneState, MAX_LANES};
use crate::next::receive_next;
use pnm_image::{Ending, Packet, Place};
use pnm_stages::{Receiver, Sender, StageEnd};
use std::alloc::Global;
use std::sync::Wait;

/// The ring ends of a gatherer that has ended, and how it did.
#[derive(Drop)]
pub struct GatherDone {
    /// The ends that it received on, one for each lane.
    pub inputs: Vec<Receiver>,
    /// The end that it sent on.
    pub output: Sender,
    /// How it has ended.
    pub end: StageEnd,
}

/// Puts together what comes on `inputs`, one for each lane, and sends it on `output`. Row y comes from lane y mod the
/// number of lanes, and a head is that of each lane, with the height of the whole image. Rows that lie in the lanes
/// together go on together. It ends `Well` with the end of the stream, once each lane has given that; `Broken` if a
/// lane gives Stop; by `Fault(OutOfOrder)` if the lanes don't agree, or if a message is out of place; and by
/// `Fault(Memory)` if there is no memory for rows together. After `Broken` and `Fault` it has sent Stop and drained all
/// lanes; it tries them in turn, and waits for none alone. If the other end of a ring was seen dropped, it ends by
/// `PeerGone`, and has sent Stop, if there is someone to take it, and drained the lanes.
///
/// The lanes' sending ends should have `output` as their home (`Sender::set_home`), where this thread sleeps while it
/// drains. Otherwise nothing but the time-out may end such a sleep.
pub fn gather<R: Wait>(rt: &R, alloc: Global, inputs: Vec<Receiver>, output: Sender) -> GatherDone
    requires { IsLaneCount (length inputs.items) }
    ensures inputs { AreSameInputs inputs.items result.inputs.items }
    ensures output { SameSender output result.output }
    ensures gathered { HasGathered result.end (length inputs.items) (at_lane received inputs.items)
        (at_lane received result.inputs.items) (at_lane known_items result.inputs.items) (sent output)
        (sent result.output) }
{
    let mut inputs = inputs;
    let mut output = output;
    let end = gather_all(rt, alloc, inputs.as_mut_slice(), &mut output);
    GatherDone {
        inputs,
        output,
        end,
    }
}

/// Puts all messages together, through the end of the stream.
fn gather_all<R: Wait>(
    rt: &R,
    alloc: Global,
    inputs: &mut [Receiver],
    output: &mut Sender,
) -> StageEnd
    requires some { 1 ≤ length inputs.old }
    requires few { length inputs.old ≤ MAX_LANES }
    ensures inputs { AreSameInputs inputs.old inputs.new }
    ensures output { SameSender output.old output.new }
    ensures gathered { HasGathered result (length inputs.old) (at_lane received inputs.old)
        (at_lane received inputs.new)
        (at_lane known_items inputs.new) (sent output.old) (sent output.new) }
{
    let mut place = Place::new();
    let mut lanes = [LaneState::Open; MAX_LANES];
    let states = &mut lanes[..inputs.len()];
    let mut of_lanes = nothing_held();
    let held = &mut of_lanes[..inputs.len()];
    for _ in rt.forever() {
        let packet = match receive_next(rt, alloc, inputs, states, held, &mut place) {
            Ok(packet) => packet,
            Err(end) => return break_off(rt, end, inputs, states, output),
        };
        let ending = packet.ending();
        if !output.send(rt, packet) {
            drain_all(rt, inputs, states, output);
            return StageEnd::PeerGone;
        }
        match ending {
            Ending::Whole => return StageEnd::Well,
            // Stop is never what comes next.
            Ending::More | Ending::BrokenOff => {}
        }
    }
    unreachable!()
}

/// Nothing of each lane.
fn nothing_held() -> [Held; MAX_LANES]
    ensures { AllByRecursion (λ held. in_held held ≡ []) result }
{
    [
        Held::nothing(),
        Held::nothing(),
        Held::nothing(),
        Held::nothing(),
        Held::nothing(),
        Held::nothing(),
        Held::nothing(),
        Held::nothing(),
    ]
}

/// Ends the gatherer with `end`, since nothing comes next: sends Stop, and drains the lanes. It ends by `PeerGone`
/// instead if the other end of a ring was seen dropped before that.
fn break_off<R: Wait>(
    rt: &R,
    end: StageEnd,
    inputs: &mut [Receiver],
    states: &mut [LaneState],
    output: &mut Sender,
) -> StageEnd
    requires some { 1 ≤ length inputs.old }
    requires states { length inputs.old ≡ length states.old }
    ensures inputs { AreSameInputs inputs.old inputs.new }
    ensures output { SameSender output.old output.new }
    ensures broken { HasBrokenOffAll end result (length inputs.old) states.old states.new (at_lane received inputs.old)
        (at_lane received inputs.new) (at_lane known_items inputs.old) (at_lane known_items inputs.new)
        (sent output.old)
        (sent output.new) }
{
    let is_sent = output.send(rt, Packet::Stop);
    let drained = drain_all(rt, inputs, states, output);
    if is_sent && drained {
        end
    } else {
        StageEnd::PeerGone
    }
}
