//! What is held of the lanes, put together.

ghost use Rattle.std.specs.Prelude.{◌≡◌, ◌≢◌, ◌<◌, ◌≤◌, ◌+◌, ◌%◌, ◌^◌, ℕ, None, false, length, drop, IfOk, IfErr};
ghost use Rattle.std.specs.Prelude.{IfSome};
ghost use Rattle.std.specs.Prelude.{IfNone, IsTrue, IsFalse, OnOk};
ghost use Rattle.pnm_image.specs.declared.place.Place.TheVariants.{Between, Inside};
ghost use Rattle.pnm_image.specs.Packets.{messages_in, ending_of_packet};
ghost use Rattle.pnm_image.specs.Messages.{EndsBy};
ghost use Rattle.pnm_image.specs.Parts.{end_messages, rest_messages};
ghost use Rattle.pnm_image.specs.Rows.{row_messages, rows_list};
ghost use Rattle.pnm_lanes.specs.Gathers.{at_lane};
ghost use Rattle.pnm_lanes.specs.Internal.GatherParts.{BeginsNone, HasAddedRows, HasPassed, HoldEach, HoldNext};
ghost use Rattle.pnm_lanes.specs.Internal.GatherParts.{IsNotTogether};
ghost use Rattle.pnm_lanes.specs.Internal.HeldMessages.{in_held, next_of};

use crate::agreement::take_heads;
use crate::held::{Held, Next};
use crate::lane::{MAX_LANES, OUT_OF_MEMORY};
use pnm_image::{Packet, Part, Place, RepeatedRows, Rows, Shape};
use pnm_stages::StageEnd;
use pnm_tools::ToolFault;
use std::alloc::{AllocError, Global};

/// The lanes don't agree, or a message is out of place.
pub const OUT_OF_ORDER: StageEnd = StageEnd::Fault(ToolFault::OutOfOrder);

/// Puts together what comes next of what is held: a head, rows and the end of the image, or some of these, or the end
/// of the stream. Returns `Fault` if the lanes don't agree, or if there is no memory.
pub fn put_together(alloc: Global, held: &mut [Held], place: Place) -> Result<Packet, StageEnd>
    requires some { 1 ≤ length held.old }
    requires few { length held.old ≤ MAX_LANES }
    requires next { HoldNext (length held.old) place held.old }
    ensures passed { IfOk result (λ packet. HasPassed (length held.old) place (messages_in packet) held.old held.new) }
    ensures ends { IfOk result (λ packet. EndsBy (ending_of_packet packet) (messages_in packet)) }
    ensures not { IfErr result (λ end. IsNotTogether end (length held.old) place held.old) }
    ensures as_many { length held.new ≡ length held.old }
{
    match place {
        Place::Between => begin(alloc, held),
        Place::Inside(shape, y) => go_on(alloc, held, shape, y),
        // Nothing comes after the end of the stream.
        Place::After => Err(OUT_OF_ORDER),
    }
}

/// The end of the stream, or the head of an image with what comes next of it.
fn begin(alloc: Global, held: &mut [Held]) -> Result<Packet, StageEnd>
    requires some { 1 ≤ length held.old }
    requires few { length held.old ≤ MAX_LANES }
    requires each { HoldEach (length held.old) held.old }
    ensures passed { IfOk result (λ packet.
        HasPassed (length held.old) Between (messages_in packet) held.old held.new) }
    ensures ends { IfOk result (λ packet. EndsBy (ending_of_packet packet) (messages_in packet)) }
    ensures not { IfErr result (λ end. IsNotTogether end (length held.old) Between held.old) }
    ensures as_many { length held.new ≡ length held.old }
{
    if take_ends(held, Next::StreamEnd) {
        return Ok(Packet::StreamEnd);
    }
    let Some(head) = take_heads(held) else {
        return Err(OUT_OF_ORDER);
    };
    let Ok((rows, ends_image)) = take_rest(alloc, held, head.shape(), 0) else {
        return Err(OUT_OF_MEMORY);
    };
    let part = Part::new(Some(head), rows, ends_image);
    Ok(Packet::Part(part))
}

/// What comes next of an image of this shape, after `y` rows.
fn go_on(alloc: Global, held: &mut [Held], shape: Shape, y: u32) -> Result<Packet, StageEnd>
    requires some { 1 ≤ length held.old }
    requires next { HoldNext (length held.old) (Inside shape y) held.old }
    ensures passed { IfOk result (λ packet.
        HasPassed (length held.old) (Inside shape y) (messages_in packet) held.old held.new) }
    ensures ends { IfOk result (λ packet. EndsBy (ending_of_packet packet) (messages_in packet)) }
    ensures not { IfErr result (λ end. IsNotTogether end (length held.old) (Inside shape y) held.old) }
    ensures as_many { length held.new ≡ length held.old }
{
    let Ok((rows, ends_image)) = take_rest(alloc, held, shape, y) else {
        return Err(OUT_OF_MEMORY);
    };
    match Part::of(None, rows, ends_image) {
        Some(part) => Ok(Packet::Part(part)),
        None => Err(OUT_OF_ORDER),
    }
}

/// Takes the rows that come next, put together, and the end of the image, if it comes behind them.
///
/// # Errors
///
/// If there is no memory for rows together.
fn take_rest(
    alloc: Global,
    held: &mut [Held],
    shape: Shape,
    y: u32,
) -> Result<(Option<RepeatedRows>, bool), AllocError>
    requires some { 1 ≤ length held.old }
    ensures passed { IfOk result (λ taken.
        HasPassed (length held.old) (Inside shape y) (rest_messages taken.0 taken.1) held.old held.new) }
    ensures none { IfOk result (λ taken. taken.0 ≡ None → taken.1 ≡ false
        → HoldNext (length held.old) (Inside shape y) held.old
        → BeginsNone (length held.old) (Inside shape y) (at_lane in_held held.old)) }
    ensures as_many { length held.new ≡ length held.old }
{
    let rows = take_rows(alloc, held, shape, y)?;
    let end = y + count_of(&rows);
    let ends_image = take_image_end(held, shape, end);
    Ok((once(rows), ends_image))
}

/// The rows as they are, if there are some.
fn once(rows: Option<Rows>) -> Option<RepeatedRows>
    ensures { result ≡ rows }
{
    match rows {
        Some(rows) => Some(RepeatedRows::once(rows)),
        None => None,
    }
}

/// The number of these rows, if there are some.
fn count_of(rows: &Option<Rows>) -> u32
    ensures { result ≡ length (rows_list rows.now) }
{
    match rows {
        Some(rows) => rows.count(),
        None => 0,
    }
}

/// Takes the end of an image of this shape after `y` rows, if it comes next of each lane. Returns whether it does.
fn take_image_end(held: &mut [Held], shape: Shape, y: u32) -> bool
    requires some { 1 ≤ length held.old }
    ensures passed { HasPassed (length held.old) (Inside shape y) (end_messages result) held.old held.new }
    ensures not { IsFalse result → shape.height ≤ y → HoldEach (length held.old) held.old
        → BeginsNone (length held.old) (Inside shape y) (at_lane in_held held.old) }
    ensures as_many { length held.new ≡ length held.old }
{
    if y != shape.height {
        return false;
    }
    take_ends(held, Next::ImageEnd)
}

/// Takes the rows that come next from row `y` on, put together: up to the first that isn't held, or isn't held as those
/// before it.
///
/// # Errors
///
/// If there is no memory for them.
fn take_rows(
    alloc: Global,
    held: &mut [Held],
    shape: Shape,
    y: u32,
) -> Result<Option<Rows>, AllocError>
    requires some { 1 ≤ length held.old }
    ensures passed { IfOk result (λ rows.
        HasPassed (length held.old) (Inside shape y) (row_messages (rows_list rows)) held.old held.new) }
    ensures few { IfOk result (λ rows. y + length (rows_list rows) < 2 ^ 32) }
    ensures none { IfOk result (λ rows. IfNone rows
        (y < shape.height → next_of (at_lane in_held held.old (y % length held.old)) ≢ Next.Row)) }
    ensures as_many { length held.new ≡ length held.old }
{
    if y >= shape.height {
        return Ok(None);
    }
    let own = y as usize % held.len();
    let Some(mut rows) = held[own].take_row(alloc)? else {
        return Ok(None);
    };
    add_rows(held, &mut rows, shape, y + 1)?;
    Ok(Some(rows))
}

/// Puts the rows that come next, from row `from` on, behind these.
///
/// # Errors
///
/// If there is no memory for them.
fn add_rows(held: &mut [Held], rows: &mut Rows, shape: Shape, from: u32) -> Result<(), AllocError>
    requires some { 1 ≤ length held.old }
    requires within { from ≤ shape.height }
    ensures added { OnOk result (HasAddedRows (length held.old) shape from rows.old rows.new held.old held.new) }
    ensures as_many { length held.new ≡ length held.old }
{
    for y in from..shape.height {
        let lane = y as usize % held.len();
        if !held[lane].pass_row(rows)? {
            return Ok(());
        }
    }
    Ok(())
}

/// Takes what comes next of each lane, if it is this of all of them: the end of an image or of the stream. Returns
/// whether it is.
fn take_ends(held: &mut [Held], next: Next) -> bool
    ensures taken { IsTrue result → (lane : ℕ) → lane < length held.old
        → (next_of (at_lane in_held held.old lane) ≡ next)
        × (at_lane in_held held.new lane ≡ drop 1 (at_lane in_held held.old lane)) }
    ensures not { IsFalse result → (held.new ≡ held.old)
        × ((lane : ℕ) × (lane < length held.old) × (next_of (at_lane in_held held.old lane) ≢ next)) }
    ensures as_many { length held.new ≡ length held.old }
{
    if !are_all(held, next) {
        return false;
    }
    pass_each(held);
    true
}

/// Whether this comes next of each lane.
fn are_all(held: &[Held], next: Next) -> bool
    ensures all { IsTrue result → (lane : ℕ) → lane < length held.now → next_of (at_lane in_held held.now lane) ≡ next }
    ensures not { IsFalse result
        → (lane : ℕ) × (lane < length held.now) × (next_of (at_lane in_held held.now lane) ≢ next) }
{
    for lane in 0..held.len() {
        if held[lane].next() != next {
            return false;
        }
    }
    true
}

/// Passes on what comes next of each lane.
fn pass_each(held: &mut [Held])
    ensures passed { (lane : ℕ) → lane < length held.old
        → at_lane in_held held.new lane ≡ drop 1 (at_lane in_held held.old lane) }
    ensures as_many { length held.new ≡ length held.old }
{
    for lane in 0..held.len() {
        held[lane].pass();
    }
}
