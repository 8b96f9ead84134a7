//! Rows of samples, held one after another.

ghost use Rattle.std.specs.Prelude.{◌≡◌, ◌+◌, ◌*◌, ◌<◌, ◌++◌, ◌∷◌, [], OnOk, OnErr, get_or, length, reverse};
ghost use Rattle.pnm_transpose.specs.Internal.FlatRows.{rows_in};

use std::alloc::{AllocError, Global};
use std::marker::Model;

/// Rows of equal length. They take no memory besides their samples.
#[derive(Drop)]
pub(crate) struct FlatRows<T> {
    samples: Vec<T>,
    /// How many samples a row has.
    each: usize,
    count: usize,
    /// Whether the row that came last is the first one.
    is_reversed: bool,
}

impl<T> Model for FlatRows<T> {
    ghost use Rattle.std.specs.Prelude.{◌≡◌, ◌*◌, List, length};
    ghost use Rattle.pnm_transpose.specs.Internal.FlatRows.{ordered_rows_in};

    ghost Value = { List (List T) };

    ghost view = { λ r. ordered_rows_in r.is_reversed r.count r.each r.samples.items };

    ghost invariant = { λ r. length r.samples.items ≡ r.count * r.each };
}

impl<T> FlatRows<T> {
    /// Creates an empty list of rows.
    pub fn new(alloc: Global) -> FlatRows<T>
        ensures { result ≡ [] }
    {
        FlatRows {
            samples: Vec::new(alloc),
            each: 0,
            count: 0,
            is_reversed: false,
        }
    }

    /// Returns the number of rows.
    pub fn len(&self) -> usize
        ensures { result ≡ length self.now }
    {
        self.count
    }

    /// Puts the rows in the opposite order.
    pub fn reverse(&mut self)
        ensures { self.new ≡ reverse self.old }
    {
        self.is_reversed = !self.is_reversed;
    }

    /// Returns row `at`.
    #[inline]
    pub fn row(&self, at: usize) -> &[T]
        requires { at < length self.now }
        ensures { result.now ≡ get_or self.now at [] }
    {
        let place = if self.is_reversed {
            self.count - 1 - at
        } else {
            at
        };
        let start = place * self.each;
        &self.samples[start..start + self.each]
    }
}

impl<T: Copy> FlatRows<T> {
    /// Removes all rows, and keeps their memory.
    pub fn clear(&mut self)
        ensures { self.new ≡ [] }
    {
        self.samples.clear();
        self.count = 0;
        self.is_reversed = false;
    }

    /// Adds a row at the end.
    ///
    /// # Errors
    ///
    /// If there is no memory for the row, if it isn't as long as the others, if the others are reversed, or if a
    /// `usize` can't hold the number of rows. Then nothing has changed.
    pub fn push(&mut self, row: &[T]) -> Result<(), AllocError>
        ensures added { OnOk result (self.new ≡ self.old ++ row.now ∷ []) }
        ensures unchanged { OnErr result (self.new ≡ self.old) }
    {
        self.push_rows(row, 1, row.len())
    }

    /// Adds `count` rows of `each` samples, which are held one after another, at the end.
    ///
    /// # Errors
    ///
    /// If there is no memory for the rows, if they aren't as long as the others, if the others are reversed, or if a
    /// `usize` can't hold the number of rows. Then nothing has changed.
    pub fn push_rows(&mut self, samples: &[T], count: usize, each: usize) -> Result<(), AllocError>
        requires { length samples.now ≡ count * each }
        ensures added { OnOk result (self.new ≡ self.old ++ rows_in count each samples.now) }
        ensures unchanged { OnErr result (self.new ≡ self.old) }
    {
        if self.is_reversed {
            return Err(AllocError);
        }
        if self.count > 0 && self.each != each {
            return Err(AllocError);
        }
        let Some(total) = self.count.checked_add(count) else {
            return Err(AllocError);
        };
        self.samples.extend_from_slice(samples)?;
        self.each = each;
        self.count = total;
        Ok(())
    }
}
