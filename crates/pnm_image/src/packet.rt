//! Packets: what a place of a ring holds, and what a filter takes and gives at once.

ghost use Rattle.std.specs.Prelude.{◌≡◌, ◌++◌, IfOk, length};
ghost use Rattle.pnm_image.specs.Packets.{ending_of_packet};
ghost use Rattle.pnm_image.specs.Rows.{rows_list};

use crate::message::{Ending, Message};
use crate::part::Part;
use crate::repeated_rows::RepeatedRows;
use crate::rows::Rows;
use std::alloc::{AllocError, Global};

/// What a place of a ring holds, and a filter takes and gives at once.
#[derive(Debug, Drop)]
pub enum Packet {
    /// A part of an image, which stands for one message or several.
    Part(Part),
    /// No image follows.
    StreamEnd,
    /// The stream was broken off before this point.
    Stop,
}

impl From<Message> for Packet {
    ghost use Rattle.std.specs.Prelude.{◌≡◌, [], ◌∷◌};
    ghost use Rattle.pnm_image.specs.Packets.{messages_in};

    ghost from_gives = { λ message packet. messages_in packet ≡ message ∷ [] };

    #[inline(always)]
    fn from(message: Message) -> Packet {
        match message {
            Message::Begin(head) => Packet::Part(Part::new(Some(head), None, false)),
            Message::Row(row) => Packet::rows(RepeatedRows::once(Rows::one(row))),
            Message::ImageEnd => Packet::Part(Part::new(None, None, true)),
            Message::StreamEnd => Packet::StreamEnd,
            Message::Stop => Packet::Stop,
        }
    }
}

impl Packet {
    ghost use Rattle.std.specs.Prelude.{◌≡◌, ◌≤◌, ◌↔◌, ◌++◌, IfOk, IsTrue, length};
    ghost use Rattle.pnm_image.specs.Packets.{messages_in, packet_list};
    ghost use Rattle.pnm_image.specs.Rows.{row_messages};

    /// Rows of an image alone.
    #[inline(always)]
    pub fn rows(rows: RepeatedRows) -> Packet
        ensures { messages_in result ≡ row_messages rows }
    {
        // No effect at run time: from this, a proof learns that there is a row.
        let _ = rows.are_several();
        Packet::Part(Part::new(None, Some(rows), false))
    }

    /// Whether the packet stands for several messages. From this, a proof learns that it stands for one at least.
    #[inline(always)]
    pub fn is_several(&self) -> bool
        ensures several { IsTrue result ↔ 2 ≤ length (messages_in self.now) }
        ensures some { 1 ≤ length (messages_in self.now) }
    {
        let Packet::Part(part) = self else {
            return false;
        };
        match part.parts() {
            (Some(_), Some(rows), _) => {
                // No effect at run time: from this, a proof learns that there is a row.
                let _ = rows.are_several();
                true
            }
            (Some(_), None, ends_image) => ends_image,
            (None, Some(rows), ends_image) => rows.are_several() || ends_image,
            (None, None, _) => false,
        }
    }

    /// Whether it is a part whose rows repeat.
    #[inline(always)]
    pub fn repeats(&self) -> bool {
        match self {
            Packet::Part(part) => match part.parts().1 {
                Some(rows) => rows.parts().1 > 1,
                None => false,
            },
            Packet::StreamEnd | Packet::Stop => false,
        }
    }

    /// Of a part, its head with the first copies of its rows, and what is left. The copies are as many as take at most
    /// 65,536 bytes, or one, so that rows which repeat are never made all at once.
    ///
    /// # Errors
    ///
    /// If there is no memory for the copies.
    pub fn split_copies(self, alloc: Global) -> Result<(Packet, Option<Packet>), AllocError>
        ensures { IfOk result (λ parts. messages_in self ≡ messages_in parts.0 ++ packet_list parts.1) }
    {
        let part = match self {
            Packet::Part(part) => part,
            whole => return Ok((whole, None)),
        };
        let (head, rows, ends_image) = part.into_parts();
        let Some(rows) = rows else {
            return Ok((Packet::Part(Part::new(head, None, ends_image)), None));
        };
        let (copies, rest) = rows.next_copies(alloc)?;
        let copies = Some(RepeatedRows::once(copies));
        match rest {
            Some(rest) => Ok((
                Packet::Part(Part::new(head, copies, false)),
                Part::of(None, Some(rest), ends_image).map(Packet::Part),
            )),
            None => Ok((Packet::Part(Part::new(head, copies, ends_image)), None)),
        }
    }

    /// The first message, as a packet of its own, and what is left.
    ///
    /// # Errors
    ///
    /// If there is no memory for a copy of the rows.
    pub fn split_first(self, alloc: Global) -> Result<(Packet, Option<Packet>), AllocError>
        ensures parts { IfOk result (λ parts. messages_in self ≡ messages_in parts.0 ++ packet_list parts.1) }
        ensures one { IfOk result (λ parts. length (messages_in parts.0) ≡ 1) }
    {
        let part = match self {
            Packet::Part(part) => part,
            whole => return Ok((whole, None)),
        };
        let (head, rows, ends_image) = part.into_parts();
        if head.is_some() {
            let rest = Part::of(None, rows, ends_image);
            return Ok((
                Packet::Part(Part::new(head, None, false)),
                rest.map(Packet::Part),
            ));
        }
        let Some(rows) = rows else {
            return Ok((Packet::Part(Part::new(None, None, ends_image)), None));
        };
        let (row, rest) = split_row(alloc, rows.into_rows(alloc)?)?;
        let rest = Part::of(None, rest.map(RepeatedRows::once), ends_image);
        Ok((
            Packet::rows(RepeatedRows::once(row)),
            rest.map(Packet::Part),
        ))
    }

    /// How the packet's last message ends its stream.
    #[inline(always)]
    pub fn ending(&self) -> Ending
        ensures { result ≡ ending_of_packet self.now }
    {
        match self {
            Packet::Part(_) => Ending::More,
            Packet::StreamEnd => Ending::Whole,
            Packet::Stop => Ending::BrokenOff,
        }
    }

    /// Whether the packet ends an image.
    #[inline(always)]
    pub fn ends_image(&self) -> bool {
        match self {
            Packet::Part(part) => part.parts().2,
            Packet::StreamEnd | Packet::Stop => false,
        }
    }
}

/// The first row, and those behind it.
///
/// # Errors
///
/// If there is no memory for them.
fn split_row(alloc: Global, rows: Rows) -> Result<(Rows, Option<Rows>), AllocError>
    ensures rows { IfOk result (λ parts. rows ≡ parts.0 ++ rows_list parts.1) }
    ensures one { IfOk result (λ parts. length parts.0 ≡ 1) }
{
    let count = rows.count();
    if count == 1 {
        return Ok((rows, None));
    }
    let first = rows.part(alloc, 0, 1)?;
    let rest = rows.part(alloc, 1, count - 1)?;
    Ok((first, Some(rest)))
}
