//! How a tool at work takes a packet: the head of an image, rows of it, and its end.

ghost use Rattle.std.specs.Prelude.{◌≡◌, [], List, ℕ, IfOk, IfErr, OnOk};
ghost use Rattle.pnm_image.specs.Packets.{messages_in};
ghost use Rattle.pnm_image.specs.Parts.{head_messages, end_messages};
ghost use Rattle.pnm_image.specs.Places.{IsLawfulFrom, place_of};
ghost use Rattle.pnm_image.specs.Rows.{row_messages, rows_list};
ghost use Rattle.pnm_image.specs.declared.place.Place.TheVariants.{Inside};
ghost use Rattle.pnm_tools.specs.declared.fault.ToolFault.TheVariants.{Memory};
ghost use Rattle.pnm_tools.specs.Tools.{IsLawfulTool};
ghost use Rattle.pnm_filters.specs.declared.pending.Phase.TheVariants.{Idle};
ghost use Rattle.pnm_filters.specs.States.{IsReadyFor, SuitsPlace};
ghost use Rattle.pnm_filters.specs.Internal.Steps.{Answered, HasBegun, HasEnded, HasTaken, IsFirstRefused, LiesInside};
ghost use Rattle.pnm_filters.specs.Internal.Steps.{phase_of};

use crate::pending::{Pending, Phase};
use pnm_image::{Head, Packet, Part, Place, RepeatedRows, Shape};
use pnm_tools::{ImageTool, ToolFault};
use std::alloc::Global;

/// Takes a packet all of whose messages may come at this place. Returns what is due for it, besides the rows that the
/// tool still makes.
#[inline(always)]
pub fn take<T: ImageTool>(
    alloc: Global,
    work: &mut T,
    place: Place,
    packet: Packet,
) -> Result<Pending, ToolFault>
    requires lawful { IsLawfulTool (T.tool work.old) }
    requires ready { (rows : List (List ℕ)) × IsReadyFor T.ready work.old place rows }
    requires suits { SuitsPlace T.due T.kept work.old place Idle }
    requires accepted { IsLawfulFrom place (messages_in packet) }
    ensures { Answered T.tool T.ready T.due T.kept work.old place (messages_in packet) work.new result }
{
    match packet {
        Packet::Part(part) => take_part(alloc, work, place, part),
        Packet::StreamEnd => Ok(Pending::alone(Phase::StreamEnd)),
        Packet::Stop => {
            work.release(alloc);
            Ok(Pending::alone(Phase::Stop))
        }
    }
}

/// Takes a part of an image, all of whose messages may come at this place.
#[inline(always)]
fn take_part<T: ImageTool>(
    alloc: Global,
    work: &mut T,
    place: Place,
    part: Part,
) -> Result<Pending, ToolFault>
    requires lawful { IsLawfulTool (T.tool work.old) }
    requires ready { (rows : List (List ℕ)) × IsReadyFor T.ready work.old place rows }
    requires suits { SuitsPlace T.due T.kept work.old place Idle }
    requires accepted { IsLawfulFrom place part }
    ensures { Answered T.tool T.ready T.due T.kept work.old place part work.new result }
{
    let (head, rows, ends_image) = part.into_parts();
    let (shape, y, made) = begin(alloc, work, place, head)?;
    take_rows(alloc, work, shape, y, rows)?;
    end(work, shape, ends_image);
    Ok(Pending {
        phase: phase_of(ends_image),
        head: made,
        ahead: None,
    })
}

/// Returns the phase after a part of an image. `ends_image` says whether the part ends it.
fn phase_of(ends_image: bool) -> Phase
    ensures { result ≡ phase_of ends_image }
{
    if ends_image {
        Phase::RowsAndEnd
    } else {
        Phase::Rows
    }
}

/// Begins an image, if its head comes. Returns the image's shape, how many of its rows have come, and the head of its
/// result, if it has begun now.
#[inline(always)]
fn begin<T: ImageTool>(
    alloc: Global,
    work: &mut T,
    place: Place,
    head: Option<Head>,
) -> Result<(Shape, u32, Option<Head>), ToolFault>
    requires lawful { IsLawfulTool (T.tool work.old) }
    requires suits { SuitsPlace T.due T.kept work.old place Idle }
    requires accepted { IsLawfulFrom place (head_messages head) }
    requires inside { LiesInside (place_of place (head_messages head)) }
    ensures begun { IfOk result (λ r. HasBegun T.tool T.ready T.due work.old place head work.new r.0 r.1 r.2) }
    ensures refused { IfErr result (λ fault. IsFirstRefused (T.tool work.old) (head_messages head) fault
        × (T.tool work.new ≡ T.tool work.old)) }
{
    match (head, place) {
        (Some(head), _) => {
            let made = work.begin(alloc, &head)?;
            Ok((head.shape(), 0, Some(made)))
        }
        (None, Place::Inside(shape, y)) => Ok((shape, y, None)),
        (None, Place::Between | Place::After) => unreachable!(),
    }
}

/// Takes rows of an image of this shape, if some come, from row `y` on. The only fault is `Memory`.
#[inline(always)]
fn take_rows<T: ImageTool>(
    alloc: Global,
    work: &mut T,
    shape: Shape,
    y: u32,
    rows: Option<RepeatedRows>,
) -> Result<(), ToolFault>
    requires lawful { IsLawfulTool (T.tool work.old) }
    requires ready { (come : List (List ℕ)) × IsReadyFor T.ready work.old (Inside shape y) come }
    requires accepted { IsLawfulFrom (Inside shape y) (row_messages (rows_list rows)) }
    requires none_due { T.due work.old ≡ [] }
    ensures taken { OnOk result (HasTaken T.tool T.ready T.due work.old shape y (rows_list rows) work.new) }
    ensures refused { IfErr result (λ fault. (fault ≡ Memory) × (T.tool work.new ≡ T.tool work.old)) }
{
    let Some(rows) = rows else {
        return Ok(());
    };
    // No effect at run time: from this, a proof learns that there is a row.
    let _ = rows.are_several();
    let rows = rows.into_rows(alloc)?;
    work.take(alloc, shape, y, rows)
}

/// Ends an image of this shape, if it ends: after row `y`, all of its rows have come.
#[inline(always)]
fn end<T: ImageTool>(work: &mut T, shape: Shape, ends_image: bool)
    requires lawful { IsLawfulTool (T.tool work.old) }
    requires ready { (y : ℕ) × IsLawfulFrom (Inside shape y) (end_messages ends_image)
        × ((come : List (List ℕ)) × IsReadyFor T.ready work.old (Inside shape y) come) }
    ensures { (y : ℕ) → IsLawfulFrom (Inside shape y) (end_messages ends_image)
        → HasEnded T.tool T.ready T.due ends_image work.old shape y work.new }
{
    if ends_image {
        work.end(shape);
    }
}
