//! The place in a stream, and which message may come there.

ghost use Rattle.std.specs.Prelude.{◌≡◌, ◌≤◌, ◌↔◌, IsTrue};
ghost use Rattle.std.specs.List.{AllByRecursion};
ghost use Rattle.pnm_image.specs.Packets.{messages_in};
ghost use Rattle.pnm_image.specs.Parts.{head_messages, end_messages, rest_messages};
ghost use Rattle.pnm_image.specs.Places.{Accepts, IsRowOf, LeadsTo, place_after};
ghost use Rattle.pnm_image.specs.Repeats.{repeated};
ghost use Rattle.pnm_image.specs.Rows.{row_messages, rows_list};

use crate::head::Head;
use crate::message::Message;
use crate::packet::Packet;
use crate::repeated_rows::RepeatedRows;
use crate::rows::Rows;
use crate::shape::Shape;
use pnm_samples::Samples;

/// A place in a stream of messages.
#[derive(Clone, Copy, Debug, PartialEq, Eq)]
pub enum Place {
    /// Before an image, or before the end of the stream.
    Between,
    /// In an image of this shape, after this many of its rows.
    Inside(Shape, u32),
    /// After the end of the stream, or after it was broken off.
    After,
}

impl Place {
    /// Returns the place before the first message.
    pub fn new() -> Place
        ensures { result ≡ Place.Between }
    {
        Self::Between
    }

    /// Returns whether the message may come here. Between images an image begins, or the stream ends. An image of
    /// height h has h rows of width times depth samples up to its maxval, and then ends. A stream may be broken off
    /// anywhere before its end.
    // A tool and the sink ask this for each row. Inlined into them, it leaves the message in registers.
    #[inline(always)]
    pub fn accepts(&self, message: &Message) -> bool
        ensures { IsTrue result ↔ Accepts self.now message.now }
    {
        match (self, message) {
            (Place::Between, Message::Begin(_) | Message::StreamEnd | Message::Stop) => true,
            (Place::Inside(shape, y), Message::Row(row)) => {
                *y < shape.height && is_row_of(shape, row)
            }
            (Place::Inside(shape, y), Message::ImageEnd) => *y == shape.height,
            (Place::Inside(_, _), Message::Stop) => true,
            _ => false,
        }
    }

    /// Returns the place after the packet, or `None` if one of its messages can't come where it stands.
    #[inline(always)]
    pub fn after(&self, packet: &Packet) -> Option<Place>
        ensures { LeadsTo self.now (messages_in packet.now) result }
    {
        match packet {
            Packet::Part(part) => {
                let (head, rows, ends_image) = part.parts();
                self.after_head(head)?.after_rest(rows, ends_image)
            }
            Packet::StreamEnd => match self {
                Place::Between => Some(Place::After),
                Place::Inside(_, _) | Place::After => None,
            },
            Packet::Stop => match self {
                Place::Between | Place::Inside(_, _) => Some(Place::After),
                Place::After => None,
            },
        }
    }

    /// Returns the place after the head of an image, if it comes, or `None` if none can begin here.
    #[inline(always)]
    fn after_head(&self, head: &Option<Head>) -> Option<Place>
        ensures { LeadsTo self.now (head_messages head.now) result }
    {
        match (head, self) {
            (None, _) => Some(*self),
            (Some(head), Place::Between) => Some(Place::Inside(head.shape(), 0)),
            (Some(_), Place::Inside(_, _) | Place::After) => None,
        }
    }

    /// Returns the place after the rows, if some come, and the end of the image, or `None` if one of these can't come
    /// here.
    #[inline(always)]
    fn after_rest(&self, rows: &Option<RepeatedRows>, ends_image: bool) -> Option<Place>
        ensures { LeadsTo self.now (rest_messages rows.now ends_image) result }
    {
        match self.after_rows(rows) {
            Some(behind) => behind.after_end(ends_image),
            None => None,
        }
    }

    /// Returns the place after the rows, if some come, or `None` if one of them can't come here.
    #[inline(always)]
    fn after_rows(&self, rows: &Option<RepeatedRows>) -> Option<Place>
        ensures { LeadsTo self.now (row_messages (rows_list rows.now)) result }
    {
        match rows {
            Some(rows) => {
                let (held, times) = rows.parts();
                self.after_copies(held, times)
            }
            None => Some(*self),
        }
    }

    /// Returns the place after the rows, which come `times` times one after another, or `None` if one of them can't
    /// come here.
    fn after_copies(&self, rows: &Rows, times: u32) -> Option<Place>
        requires some { 1 ≤ times }
        ensures { LeadsTo self.now (row_messages (repeated times rows.now)) result }
    {
        let count = u64::from(rows.count()) * u64::from(times);
        let Place::Inside(shape, y) = self else {
            return None;
        };
        let end = u64::from(*y) + count;
        if *y < shape.height && end <= u64::from(shape.height) && are_rows_of(shape, rows) {
            Some(Place::Inside(*shape, end as u32))
        } else {
            None
        }
    }

    /// Returns the place after the end of an image, if it comes, or `None` if none can end here.
    #[inline(always)]
    fn after_end(&self, ends_image: bool) -> Option<Place>
        ensures { LeadsTo self.now (end_messages ends_image) result }
    {
        match self {
            _ if !ends_image => Some(*self),
            Place::Inside(shape, y) if *y == shape.height => Some(Place::Between),
            _ => None,
        }
    }

    /// Goes on to the place after the message.
    #[inline(always)]
    pub fn step(&mut self, message: &Message)
        requires { Accepts self.old message.now }
        ensures { self.new ≡ place_after self.old message.now }
    {
        match message {
            Message::Begin(head) => *self = Place::Inside(head.shape(), 0),
            Message::Row(_) => {
                if let Place::Inside(shape, y) = self {
                    prove!(*y < shape.height);
                    *y += 1;
                }
            }
            Message::ImageEnd => *self = Place::Between,
            Message::StreamEnd | Message::Stop => *self = Place::After,
        }
    }
}

/// Returns whether the row has as many samples as the shape says, none of them above the maxval.
#[inline(always)]
fn is_row_of(shape: &Shape, row: &Samples) -> bool
    ensures { IsTrue result ↔ IsRowOf shape.now row.now }
{
    row.len() as u64 == shape.row_length() && row.are_within(shape.maxval)
}

/// Returns whether each row has as many samples as the shape says, none of them above the maxval.
fn are_rows_of(shape: &Shape, rows: &Rows) -> bool
    ensures { IsTrue result ↔ AllByRecursion (IsRowOf shape.now) rows.now }
{
    rows.row_length() as u64 == shape.row_length() && rows.are_within(shape.maxval)
}
