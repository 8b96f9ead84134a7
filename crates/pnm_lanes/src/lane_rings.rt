//! The rings of a tool over several lanes: one to each lane and one from it.

ghost use Rattle.std.specs.Prelude.{◌≡◌, ◌≤◌, [], length, vec_capacity, IfSome};
ghost use Rattle.pnm_lanes.specs.LaneRings.{AreUnused};

use pnm_stages::{Receiver, Sender, StageDone, new_ring};
use std::alloc::Global;

/// The ring ends of a lane.
#[derive(Drop)]
pub struct LaneRingEnds {
    /// The end that it receives on.
    pub input: Receiver,
    /// The end that it sends on.
    pub output: Sender,
}

/// The ends of the rings of several lanes, in the order of the lanes, and room for what the lanes give back.
#[derive(Drop)]
pub struct LaneRings {
    /// The ends that the thread before the lanes sends on.
    pub outputs: Vec<Sender>,
    /// The ends of the lanes themselves.
    pub lanes: Vec<LaneRingEnds>,
    /// The ends that the thread behind the lanes receives on.
    pub inputs: Vec<Receiver>,
    /// A list that has room for the lanes once they have ended.
    pub reserved: Vec<StageDone>,
}

impl LaneRings {
    /// Makes the rings of `lanes` lanes, for `capacity` packets each, and reserves the list for what the lanes give
    /// back. Returns `None` if there is no memory.
    pub fn new(alloc: Global, lanes: usize, capacity: usize) -> Option<LaneRings>
        ensures unused { IfSome result (λ rings. AreUnused rings.outputs.items rings.lanes.items rings.inputs.items) }
        ensures count { IfSome result (λ rings. length rings.lanes.items ≡ lanes) }
        ensures reserved { IfSome result
            (λ rings. (rings.reserved.items ≡ []) × (lanes ≤ vec_capacity rings.reserved)) }
    {
        let mut outputs = Vec::with_capacity(alloc, lanes).ok()?;
        let mut ends = Vec::with_capacity(alloc, lanes).ok()?;
        let mut inputs = Vec::with_capacity(alloc, lanes).ok()?;
        let reserved = Vec::with_capacity(alloc, lanes).ok()?;
        for _ in 0..lanes {
            let (sender, input) = new_ring(alloc, capacity)?;
            let (output, receiver) = new_ring(alloc, capacity)?;
            outputs.push_reserved(sender);
            ends.push_reserved(LaneRingEnds { input, output });
            inputs.push_reserved(receiver);
        }
        Some(LaneRings {
            outputs,
            lanes: ends,
            inputs,
            reserved,
        })
    }
}
