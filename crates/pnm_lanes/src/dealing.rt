//! Dealing: the rows of each image go to lanes in turn, and each lane gets a stream of images of its own.

ghost use Rattle.std.specs.Prelude.{◌≡◌, ◌⊎◌, ◌<◌, ◌≤◌, ◌+◌, ◌-◌, ◌∷◌, ◌++◌, [], length, IfOk, IfErr, IfSome, IfNone};
ghost use Rattle.std.specs.Prelude.{IsTrue, IsFalse};
ghost use Rattle.pnm_image.specs.declared.message.Ending.TheVariants.{More, Whole, BrokenOff};
ghost use Rattle.pnm_image.specs.Parts.{head_messages, end_messages};
ghost use Rattle.pnm_image.specs.Rows.{every, row_messages, rows_list};
ghost use Rattle.pnm_image.specs.Packets.{messages_in, packet_list};
ghost use Rattle.pnm_stages.specs.Rings.{sent, received, known_items, SameReceiver};
ghost use Rattle.pnm_image.specs.Places.{IsLawfulFrom};
ghost use Rattle.pnm_tools.specs.declared.fault.ToolFault.TheVariants.{OutOfOrder};
ghost use Rattle.pnm_tools.specs.Dealing.{dealt_height};
ghost use Rattle.pnm_tools.specs.Unfed.{unfed_in};
ghost use Rattle.pnm_stages.specs.declared.stage.StageEnd.TheVariants.{Fault};
ghost use Rattle.pnm_lanes.specs.LaneLimits.{IsLaneCount};
ghost use Rattle.pnm_lanes.specs.Deals.{AtEach, HasDealt};
ghost use Rattle.pnm_lanes.specs.Internal.DealParts.{HasDealtMessages, HasTakenLawful, IsRefused, HasSentParts};
ghost use Rattle.pnm_lanes.specs.Internal.DealParts.{part_at, AreLeftFrom, row_at, dealt_begin, stream_end, IsSentTo};
ghost use Rattle.pnm_lanes.specs.Internal.DealParts.{IsSameEnd, HasBrokenOffDealing};
ghost use Rattle.pnm_lanes.specs.declared.lane.TheConstants.{MAX_LANES};

use pnm_image::{Ending, Head, Packet, Part, Place, RepeatedRows, Rows};
use pnm_stages::{Receiver, Sender, StageEnd};
use pnm_tools::{ToolFault, Unfed};
use std::alloc::{AllocError, Global};
use std::sync::Wait;

/// The ring ends of a thread that has dealt, and how it ended.
#[derive(Drop)]
pub struct DealDone {
    /// The end that it received on.
    pub input: Receiver,
    /// The ends that it sent on, one for each lane.
    pub outputs: Vec<Sender>,
    /// How it has ended.
    pub end: StageEnd,
}

/// Deals what comes on `input` to lanes, one for each of the `outputs`, of which there are 1 to 8. Row y of an image
/// goes to lane y mod the number of lanes, both counted from 0. Of rows that come together each lane gets its own
/// together, as a copy; a single row is moved. Each lane gets a copy of each head, with the number of the lane's rows
/// as the height, and each end of an image and of the stream.
///
/// The faults are `OutOfOrder`, if a message can't come at its place, and `Memory`, if there is no memory for the copy
/// of a head or of rows. After a fault each lane is sent Stop, and the input is taken and dropped through its end or
/// its Stop. If the other end of a ring is dropped early, the end is `PeerGone`: each lane whose stream hasn't ended is
/// sent Stop, and the input is drained.
pub fn deal<R: Wait>(rt: &R, alloc: Global, input: Receiver, outputs: Vec<Sender>) -> DealDone
    requires { IsLaneCount (length outputs.items) }
    ensures input { SameReceiver input result.input }
    ensures count { length result.outputs.items ≡ length outputs.items }
    ensures dealt { HasDealt result.end (received input) (received result.input) (known_items result.input)
        outputs.items result.outputs.items }
{
    let mut input = input;
    let mut outputs = outputs;
    let end = deal_all(rt, alloc, &mut input, outputs.as_mut_slice());
    DealDone {
        input,
        outputs,
        end,
    }
}

/// Deals all messages through to the end of the stream.
fn deal_all<R: Wait>(
    rt: &R,
    alloc: Global,
    input: &mut Receiver,
    outputs: &mut [Sender],
) -> StageEnd
    requires { IsLaneCount (length outputs.old) }
    ensures input { SameReceiver input.old input.new }
    ensures dealt { HasDealt result (received input.old) (received input.new) (known_items input.new)
        outputs.old outputs.new }
{
    let mut place = Place::new();
    coalesce_each(outputs);
    for _ in rt.forever() {
        wake_before_input(input, outputs);
        let Some(packet) = input.receive(rt) else {
            let end = StageEnd::PeerGone;
            return break_off(rt, end, Ending::More, input, outputs);
        };
        let ending = packet.ending();
        if let Some(end) = deal_packet(rt, alloc, &mut place, packet, outputs) {
            if is_end_dealt(end, ending) {
                return StageEnd::PeerGone;
            }
            return break_off(rt, end, ending, input, outputs);
        }
        match ending {
            Ending::More => {}
            Ending::Whole => return StageEnd::Well,
            Ending::BrokenOff => return StageEnd::Broken,
        }
    }
    unreachable!()
}

/// If the dealing ends with `end` at a packet with this ending: whether the end of the stream, or Stop, was dealt to
/// each lane whose other end wasn't gone.
fn is_end_dealt(end: StageEnd, ending: Ending) -> bool
    ensures yes { IsTrue result → (ending ≡ Whole) ⊎ (ending ≡ BrokenOff) }
    ensures no { IsFalse result → (end ≡ Fault OutOfOrder) ⊎ (ending ≡ More) }
{
    match ending {
        Ending::More => false,
        Ending::Whole | Ending::BrokenOff => end != StageEnd::Fault(ToolFault::OutOfOrder),
    }
}

/// Deals the messages of a packet, and goes on to the place after them. If not all can be dealt, returns how the
/// dealing ends; some may have been dealt.
fn deal_packet<R: Wait>(
    rt: &R,
    alloc: Global,
    place: &mut Place,
    packet: Packet,
    outputs: &mut [Sender],
) -> Option<StageEnd>
    requires { IsLaneCount (length outputs.old) }
    ensures { HasDealtMessages place.old place.new (messages_in packet) result outputs.old outputs.new }
{
    deal_unfed(rt, alloc, place, &mut Unfed::of(packet), outputs)
}

/// Deals what is left of a packet.
fn deal_unfed<R: Wait>(
    rt: &R,
    alloc: Global,
    place: &mut Place,
    unfed: &mut Unfed,
    outputs: &mut [Sender],
) -> Option<StageEnd>
    requires { IsLaneCount (length outputs.old) }
    ensures { HasDealtMessages place.old place.new (unfed_in unfed.old) result outputs.old outputs.new }
{
    loop {
        let next = match next_lawful(alloc, place, unfed) {
            Ok(next) => next,
            Err(fault) => return Some(StageEnd::Fault(fault)),
        };
        let Some((packet, after)) = next else {
            return None;
        };
        if let Some(end) = send_packet(rt, alloc, *place, packet, outputs) {
            return Some(end);
        }
        *place = after;
    }
}

/// Takes what comes next of a packet, or only its first message if not all of it may come at this place. Returns it
/// with the place after it, or `None` if nothing is left.
///
/// # Errors
///
/// `OutOfOrder` if the next message can't come here, and `Memory` if there is no memory to take the packet apart.
fn next_lawful(
    alloc: Global,
    place: &Place,
    unfed: &mut Unfed,
) -> Result<Option<(Packet, Place)>, ToolFault>
    ensures some { IfOk result (λ next. IfSome next (λ taken.
        HasTakenLawful place.now (unfed_in unfed.old) taken.0 taken.1 (unfed_in unfed.new))) }
    ensures none { IfOk result (λ next. IfNone next (unfed_in unfed.old ≡ [])) }
    ensures refused { IfErr result (λ fault. IsRefused fault place.now (unfed_in unfed.old)) }
{
    let Ok(next) = unfed.next(alloc) else {
        return Err(ToolFault::Memory);
    };
    let Some(packet) = next else {
        return Ok(None);
    };
    if let Some(after) = place.after(&packet) {
        return Ok(Some((packet, after)));
    }
    let Ok(first) = unfed.first_of(alloc, packet) else {
        return Err(ToolFault::Memory);
    };
    match place.after(&first) {
        Some(after) => Ok(Some((first, after))),
        None => Err(ToolFault::OutOfOrder),
    }
}

/// Sends each lane its part of a packet, all of which may come at this place. If a lane can't be sent its part, returns
/// how the dealing ends; other lanes may have been sent theirs.
fn send_packet<R: Wait>(
    rt: &R,
    alloc: Global,
    place: Place,
    packet: Packet,
    outputs: &mut [Sender],
) -> Option<StageEnd>
    requires lanes { IsLaneCount (length outputs.old) }
    requires lawful { IsLawfulFrom place (messages_in packet) }
    ensures { HasSentParts (part_at (length outputs.old) place (messages_in packet)) result outputs.old outputs.new }
{
    match packet {
        Packet::Part(part) => send_part(rt, alloc, place, part, outputs),
        Packet::StreamEnd => send_end(rt, true, outputs),
        Packet::Stop => send_end(rt, false, outputs),
    }
}

/// Sends each lane its part of a part of an image, first the lane of the row that comes next. Goes on past a lane whose
/// other end was seen dropped.
fn send_part<R: Wait>(
    rt: &R,
    alloc: Global,
    place: Place,
    part: Part,
    outputs: &mut [Sender],
) -> Option<StageEnd>
    requires lanes { IsLaneCount (length outputs.old) }
    requires lawful { IsLawfulFrom place part }
    ensures { HasSentParts (part_at (length outputs.old) place part) result outputs.old outputs.new }
{
    let (head, rows, ends_image) = part.into_parts();
    let Ok(mut rows) = all_copies(alloc, rows) else {
        return Some(StageEnd::Fault(ToolFault::Memory));
    };
    let lanes = outputs.len() as u32;
    let first = next_row(place) % lanes;
    let mut unsent = None;
    for turn in 0..lanes {
        let lane = (first + turn) % lanes;
        let Ok(part) = part_of(alloc, &head, &mut rows, ends_image, turn, lane, lanes) else {
            return Some(StageEnd::Fault(ToolFault::Memory));
        };
        if !send_to(rt, lane as usize, part, outputs) {
            unsent = Some(StageEnd::PeerGone);
        }
    }
    unsent
}

/// Returns the number of the row that comes next at a place, or 0 if none can come.
fn next_row(place: Place) -> u32
    ensures { result ≡ row_at place }
{
    match place {
        Place::Inside(_, y) => y,
        Place::Between | Place::After => 0,
    }
}

/// Returns the rows with all their copies, one after another.
///
/// # Errors
///
/// If there is no memory for the copies.
fn all_copies(alloc: Global, rows: Option<RepeatedRows>) -> Result<Option<Rows>, AllocError>
    ensures { IfOk result (λ held. rows_list held ≡ rows_list rows) }
{
    match rows {
        Some(rows) => Ok(Some(rows.into_rows(alloc)?)),
        None => Ok(None),
    }
}

/// Returns what the lane whose turn it is gets of a part of an image, if it gets something. Takes the rows out if the
/// turns that follow don't need them.
///
/// # Errors
///
/// If there is no memory for a copy.
fn part_of(
    alloc: Global,
    head: &Option<Head>,
    rows: &mut Option<Rows>,
    ends_image: bool,
    turn: u32,
    lane: u32,
    lanes: u32,
) -> Result<Option<Packet>, AllocError>
    requires turn { turn < lanes }
    requires lane { lane < lanes }
    requires lanes { lanes ≤ MAX_LANES }
    ensures part { IfOk result (λ part. packet_list part ≡ dealt_begin lane lanes head.now
        ++ (row_messages (every turn (lanes - 1) (rows_list rows.old)) ++ end_messages ends_image)) }
    ensures left { AreLeftFrom (turn + 1) lanes (rows_list rows.old) (rows_list rows.new) }
{
    let head = head_of(head, lane, lanes)?;
    let rows = rows_of(alloc, rows, turn, lanes)?;
    Ok(Part::of(head, rows.map(RepeatedRows::once), ends_image).map(Packet::Part))
}

/// Returns a lane's copy of a head, if there is one, with the number of the lane's rows as the height.
///
/// # Errors
///
/// If there is no memory for it.
fn head_of(head: &Option<Head>, lane: u32, lanes: u32) -> Result<Option<Head>, AllocError>
    requires lane { lane < lanes }
    requires lanes { lanes ≤ MAX_LANES }
    ensures { IfOk result (λ part. head_messages part ≡ dealt_begin lane lanes head.now) }
{
    let Some(head) = head else {
        return Ok(None);
    };
    let height = dealt_height(head.shape().height, lane, lanes);
    let Ok(head) = head.copy() else {
        return Err(AllocError);
    };
    Ok(Some(head.with_height(height)))
}

/// Returns a copy of row `from` and of every row that comes `lanes` rows behind one that is copied. Takes the rows
/// themselves out if there is a single row, or a single lane. Returns `None` if there is no row `from`.
///
/// # Errors
///
/// If there is no memory for a copy.
fn rows_of(
    alloc: Global,
    rows: &mut Option<Rows>,
    from: u32,
    lanes: u32,
) -> Result<Option<Rows>, AllocError>
    requires { from < lanes }
    ensures rows { IfOk result (λ part. rows_list part ≡ every from (lanes - 1) (rows_list rows.old)) }
    ensures left { AreLeftFrom (from + 1) lanes (rows_list rows.old) (rows_list rows.new) }
{
    let Some(held) = &*rows else {
        return Ok(None);
    };
    let count = held.count();
    if count <= from {
        return Ok(None);
    }
    if count == 1 || lanes == 1 {
        return Ok(rows.take());
    }
    Ok(Some(held.every(alloc, from, lanes)?))
}

/// Sends each lane the end of the stream, or Stop if it isn't whole, and goes on past a lane whose other end was seen
/// dropped.
fn send_end<R: Wait>(rt: &R, is_whole: bool, outputs: &mut [Sender]) -> Option<StageEnd>
    ensures { HasSentParts (λ lane. stream_end is_whole ∷ []) result outputs.old outputs.new }
{
    let mut unsent = None;
    for lane in 0..outputs.len() {
        let end = if is_whole {
            Packet::StreamEnd
        } else {
            Packet::Stop
        };
        if !send_to(rt, lane, Some(end), outputs) {
            unsent = Some(StageEnd::PeerGone);
        }
    }
    unsent
}

/// Sends a lane a packet, if there is one. Returns false, and the packet is lost, if the lane's other end was seen
/// dropped.
fn send_to<R: Wait>(rt: &R, lane: usize, packet: Option<Packet>, outputs: &mut [Sender]) -> bool
    requires { lane < length outputs.old }
    ensures given { IsTrue result → AtEach (IsSentTo lane (packet_list packet)) outputs.old outputs.new }
    ensures gone { IsFalse result → AtEach IsSameEnd outputs.old outputs.new }
{
    let Some(packet) = packet else {
        return true;
    };
    wake_before_room(outputs, lane);
    outputs[lane].send(rt, packet)
}

/// From now on, wakes each lane once for several short messages. So the dealer has to wake each before it waits for
/// anything.
fn coalesce_each(outputs: &mut [Sender])
    ensures { AtEach IsSameEnd outputs.old outputs.new }
{
    for lane in 0..outputs.len() {
        outputs[lane].coalesce_wakes();
    }
}

/// Wakes each lane for what it was sent, if the dealer may have to wait for the input's next message.
fn wake_before_input(input: &mut Receiver, outputs: &mut [Sender])
    ensures input { SameReceiver input.old input.new × (received input.new ≡ received input.old) }
    ensures outputs { AtEach IsSameEnd outputs.old outputs.new }
{
    if !input.has_message() {
        wake_each(outputs);
    }
}

/// Wakes each lane for what it was sent, if the dealer may have to wait for room in this lane's ring.
fn wake_before_room(outputs: &mut [Sender], lane: usize)
    requires { lane < length outputs.old }
    ensures { AtEach IsSameEnd outputs.old outputs.new }
{
    if !outputs[lane].has_room() {
        wake_each(outputs);
    }
}

/// Wakes each lane that was sent something since the dealer last woke it.
fn wake_each(outputs: &mut [Sender])
    ensures { AtEach IsSameEnd outputs.old outputs.new }
{
    for lane in 0..outputs.len() {
        outputs[lane].wake_receiver();
    }
}

/// How many rows of an image of this height the lane gets, if row y goes to lane y mod `lanes`, both counted from 0.
pub fn dealt_height(height: u32, lane: u32, lanes: u32) -> u32
    requires { lane < lanes }
    ensures { result ≡ dealt_height lane lanes height }
{
    let rounds = height / lanes;
    if lane < height % lanes {
        rounds + 1
    } else {
        rounds
    }
}

/// Ends the dealing with `end`, after a message with this ending: sends each lane Stop, and drops what comes, through
/// the end of the stream or Stop. Returns `PeerGone` instead if the other end of a ring was seen dropped before that.
fn break_off<R: Wait>(
    rt: &R,
    end: StageEnd,
    ending: Ending,
    input: &mut Receiver,
    outputs: &mut [Sender],
) -> StageEnd
    requires { IsLaneCount (length outputs.old) }
    ensures input { SameReceiver input.old input.new }
    ensures broken { HasBrokenOffDealing end ending result
        (received input.old) (received input.new) (known_items input.new) outputs.old outputs.new }
{
    let untold = send_end(rt, false, outputs);
    let drained = input.drain_after(rt, ending);
    if untold.is_none() && drained {
        end
    } else {
        StageEnd::PeerGone
    }
}
