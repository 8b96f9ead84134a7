//! Parts of an image: what passes of one at once.

ghost use Rattle.std.specs.Prelude.{◌≡◌, ◌≤◌, length, IfNone, None, false};
ghost use Rattle.pnm_image.specs.Parts.{part_list, part_messages};

use crate::head::Head;
use crate::repeated_rows::RepeatedRows;
use std::marker::Model;

/// A part of an image: its head, the rows that come next, and its end, or some of these, at least one. A small image
/// may be one part, and a wide row is a part of its own.
#[derive(Debug, Drop)]
pub struct Part {
    head: Option<Head>,
    rows: Option<RepeatedRows>,
    ends_image: bool,
}

impl Model for Part {
    ghost use Rattle.std.specs.Prelude.{◌≤◌, List, length};
    ghost use Rattle.pnm_image.specs.declared.message.Message.{Message as MessageValue};
    ghost use Rattle.pnm_image.specs.Parts.{part_messages};

    ghost Value = { List MessageValue };

    ghost view = { λ p. part_messages p.head p.rows p.ends_image };

    ghost invariant = { λ p. 1 ≤ length (part_messages p.head p.rows p.ends_image) };
}

impl Part {
    /// The head of an image, rows that come next, and the image's end: at least one of these.
    #[inline(always)]
    pub fn new(head: Option<Head>, rows: Option<RepeatedRows>, ends_image: bool) -> Part
        requires some { 1 ≤ length (part_messages head rows ends_image) }
        ensures { result ≡ part_messages head rows ends_image }
    {
        Part {
            head,
            rows,
            ends_image,
        }
    }

    /// The same, or `None` if there are neither a head nor rows nor an end.
    #[inline(always)]
    pub fn of(head: Option<Head>, rows: Option<RepeatedRows>, ends_image: bool) -> Option<Part>
        ensures parts { part_list result ≡ part_messages head rows ends_image }
        ensures none { IfNone result ((head ≡ None) × (rows ≡ None) × (ends_image ≡ false)) }
    {
        match rows {
            Some(rows) => {
                // No effect at run time: from this, a proof learns that there is a row.
                let _ = rows.are_several();
                Some(Part::new(head, Some(rows), ends_image))
            }
            None if head.is_some() || ends_image => Some(Part::new(head, None, ends_image)),
            None => None,
        }
    }

    /// The head, the rows, and whether the image ends.
    #[inline(always)]
    pub fn parts(&self) -> (&Option<Head>, &Option<RepeatedRows>, bool)
        ensures parts { self.now ≡ part_messages result.0.now result.1.now result.2 }
        ensures some { 1 ≤ length self.now }
    {
        (&self.head, &self.rows, self.ends_image)
    }

    /// The head, the rows, and whether the image ends, without a copy.
    #[inline(always)]
    pub fn into_parts(self) -> (Option<Head>, Option<RepeatedRows>, bool)
        ensures parts { self ≡ part_messages result.0 result.1 result.2 }
        ensures some { 1 ≤ length self }
    {
        (self.head, self.rows, self.ends_image)
    }
}
