//! What a lane has given and the gatherer hasn't passed on yet.

ghost use Rattle.std.specs.Prelude.{◌≡◌, ◌≢◌, ◌<◌, ◌≤◌, [], ◌∷◌, length, drop, IfOk, IfSome, IfNone, IsTrue, IsFalse};
ghost use Rattle.std.specs.Prelude.{◌++◌, None, IsSome};
ghost use Rattle.std.specs.Option.{ForSome};
ghost use Rattle.pnm_image.specs.declared.message.Message.TheVariants.{Begin};
ghost use Rattle.pnm_image.specs.Packets.{messages_in};
ghost use Rattle.pnm_image.specs.Rows.{rows_list};

use pnm_image::{Ending, Head, Packet, RepeatedRows, Rows};
use std::alloc::{AllocError, Global};

/// What comes next of what a lane has given.
#[derive(Clone, Copy, PartialEq, Eq)]
pub enum Next {
    /// It has given nothing that isn't passed on.
    Nothing,
    /// The head of an image.
    Head,
    /// A row.
    Row,
    /// The end of an image.
    ImageEnd,
    /// The end of the stream.
    StreamEnd,
    /// Stop.
    Stop,
}

/// What a lane has given and isn't passed on yet: a head, rows, the end of an image or of the stream, in this order,
/// or some of these, or none.
#[derive(Drop)]
pub struct Held {
    head: Option<Head>,
    rows: Option<Rows>,
    /// How many of the rows have been passed on.
    passed: u32,
    ends_image: bool,
    ending: Ending,
    ghost left: { ForSome rows (λ rows. passed < length rows) },
}

impl Held {
    ghost use Rattle.pnm_lanes.specs.Internal.HeldMessages.{in_held, last_messages, next_of, HasPassedRow};

    /// Nothing.
    pub fn nothing() -> Held
        ensures { in_held result ≡ [] }
    {
        Held::ended(Ending::More)
    }

    /// The end of the stream, or Stop, or nothing.
    fn ended(ending: Ending) -> Held
        ensures { in_held result ≡ last_messages ending }
    {
        Held {
            head: None,
            rows: None,
            passed: 0,
            ends_image: false,
            ending,
        }
    }

    /// What a lane has given.
    ///
    /// # Errors
    ///
    /// If there is no memory for rows that repeat.
    pub fn of(alloc: Global, packet: Packet) -> Result<Held, AllocError>
        ensures { IfOk result (λ held. in_held held ≡ messages_in packet) }
    {
        let (head, rows, ends_image) = match packet {
            Packet::Part(part) => part.into_parts(),
            Packet::StreamEnd => return Ok(Held::ended(Ending::Whole)),
            Packet::Stop => return Ok(Held::ended(Ending::BrokenOff)),
        };
        Ok(Held {
            head,
            rows: flat(alloc, rows)?,
            passed: 0,
            ends_image,
            ending: Ending::More,
        })
    }

    /// What comes next.
    pub fn next(&self) -> Next
        ensures { result ≡ next_of (in_held self.now) }
    {
        if self.head.is_some() {
            return Next::Head;
        }
        if self.rows.is_some() {
            return Next::Row;
        }
        if self.ends_image {
            return Next::ImageEnd;
        }
        match self.ending {
            Ending::More => Next::Nothing,
            Ending::Whole => Next::StreamEnd,
            Ending::BrokenOff => Next::Stop,
        }
    }

    /// Whether a row comes next, and something behind it.
    pub fn are_rows_together(&self) -> bool {
        match (&self.head, &self.rows) {
            (None, Some(rows)) => self.ends_image || rows.count() - self.passed > 1,
            _ => false,
        }
    }

    /// Passes on what comes next.
    pub fn pass(&mut self)
        ensures { in_held self.new ≡ drop 1 (in_held self.old) }
    {
        if self.head.is_some() {
            self.head = None;
        } else if self.rows.is_some() {
            self.pass_first_row();
        } else if self.ends_image {
            self.ends_image = false;
        } else {
            self.ending = Ending::More;
        }
    }

    /// Passes on the next row.
    fn pass_first_row(&mut self)
        requires head { self.old.head ≡ None }
        requires row { IsSome self.old.rows }
        ensures { in_held self.new ≡ drop 1 (in_held self.old) }
    {
        let Some(rows) = &self.rows else {
            return;
        };
        let left = rows.count() - self.passed;
        if left > 1 {
            self.passed += 1;
        } else {
            self.rows = None;
        }
    }

    /// Takes the head of an image, if it comes next.
    pub fn take_head(&mut self) -> Option<Head>
        ensures some { IfSome result (λ head. in_held self.old ≡ Begin head ∷ in_held self.new) }
        ensures none { IfNone result (next_of (in_held self.old) ≢ Next.Head) }
    {
        self.head.take()
    }

    /// Takes the next row, if one comes next. It copies the row only if others were given with it.
    ///
    /// # Errors
    ///
    /// If there is no memory for a copy.
    pub fn take_row(&mut self, alloc: Global) -> Result<Option<Rows>, AllocError>
        ensures row { IfOk result (λ row. IfSome row (λ rows.
            HasPassedRow [] rows (in_held self.old) (in_held self.new))) }
        ensures none { IfOk result (λ row. IfNone row
            ((in_held self.new ≡ in_held self.old) × (next_of (in_held self.old) ≢ Next.Row))) }
    {
        if self.head.is_some() {
            return Ok(None);
        }
        let Some(rows) = &self.rows else {
            return Ok(None);
        };
        if rows.count() == 1 {
            return Ok(self.rows.take());
        }
        let row = rows.part(alloc, self.passed, 1)?;
        self.pass_first_row();
        Ok(Some(row))
    }

    /// Puts the next row behind these. Returns false, and changes nothing, if no row comes next, or if it isn't held as
    /// these are.
    ///
    /// # Errors
    ///
    /// If there is no memory for it.
    pub fn pass_row(&mut self, rows: &mut Rows) -> Result<bool, AllocError>
        ensures passed { IfOk result (λ is_passed. IsTrue is_passed
            → HasPassedRow rows.old rows.new (in_held self.old) (in_held self.new)) }
        ensures same { IfOk result (λ is_passed. IsFalse is_passed
            → (rows.new ≡ rows.old) × (in_held self.new ≡ in_held self.old)) }
    {
        if self.head.is_some() {
            return Ok(false);
        }
        let Some(held) = &self.rows else {
            return Ok(false);
        };
        if !rows.append_row(held, self.passed)? {
            return Ok(false);
        }
        self.pass_first_row();
        Ok(true)
    }
}

/// The rows, one after another.
///
/// # Errors
///
/// If there is no memory for rows that repeat.
fn flat(alloc: Global, rows: Option<RepeatedRows>) -> Result<Option<Rows>, AllocError>
    ensures same { IfOk result (λ flat. rows_list flat ≡ rows_list rows) }
    ensures some { IfOk result (λ flat. IfSome flat (λ rows. 1 ≤ length rows)) }
{
    let Some(rows) = rows else {
        return Ok(None);
    };
    let rows = rows.into_rows(alloc)?;
    // No effect at run time: from this, a proof learns that there is a row.
    let _ = rows.count();
    Ok(Some(rows))
}
