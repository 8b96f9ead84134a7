//! Rows of packed pixels, held one after another.

ghost use Rattle.std.specs.Prelude.{◌≡◌, ◌+◌, ◌*◌, ◌<◌, ◌≤◌, ◌++◌, ◌∷◌, [], OnOk, OnErr, drop, get_or, length};
ghost use Rattle.std.specs.Prelude.{reverse, take};
ghost use Rattle.pnm_samples.specs.Internal.Columns.{HoldsFrom};
ghost use Rattle.pnm_samples.specs.Cuts.{cut_rows};
ghost use Rattle.pnm_samples.specs.PixelRows.{bytes_for, rows_of_bytes};

use crate::bit_rows::BitRows;
use crate::bits::Bits;
use std::alloc::{AllocError, Global};
use std::marker::Model;

/// Rows of pixels, all of the same length. They take no memory besides their bytes.
#[derive(Drop)]
pub struct PixelRows {
    /// The bytes of each row, as many as its pixels need. Spare bits of a row's last byte may be black.
    bytes: Vec<u8>,
    /// How many pixels a row has.
    each: usize,
    count: usize,
    /// Whether the row that was added last is the first one.
    is_reversed: bool,
}

impl Model for PixelRows {
    ghost use Rattle.std.specs.Prelude.{◌≡◌, ◌*◌, List, ℕ, length};
    ghost use Rattle.pnm_samples.specs.PixelRows.{bytes_for, ordered_rows};

    ghost Value = { List (List ℕ) };

    ghost view = { λ r. ordered_rows r.is_reversed r.count r.each r.bytes.items };

    ghost invariant = { λ r. length r.bytes.items ≡ r.count * bytes_for r.each };
}

impl PixelRows {
    /// Creates an empty list of rows.
    pub fn new(alloc: Global) -> PixelRows
        ensures { result ≡ [] }
    {
        PixelRows {
            bytes: Vec::new(alloc),
            each: 0,
            count: 0,
            is_reversed: false,
        }
    }

    /// Returns the number of rows.
    pub(crate) fn len(&self) -> usize
        ensures { result ≡ length self.now }
    {
        self.count
    }

    /// Adds a row at the end.
    ///
    /// # Errors
    ///
    /// If there is no memory for the row, if it isn't as long as the others, if the others are reversed, or if a
    /// `usize` can't hold the number of rows. Then nothing has changed.
    pub fn push(&mut self, row: &Bits) -> Result<(), AllocError>
        ensures added { OnOk result (self.new ≡ self.old ++ row.now ∷ []) }
        ensures unchanged { OnErr result (self.new ≡ self.old) }
    {
        self.add(row.as_bytes(), 1, row.len())
    }

    /// Adds the rows at the end.
    ///
    /// # Errors
    ///
    /// If there is no memory for the rows, if they aren't as long as the others, if the others are reversed, or if a
    /// `usize` can't hold the number of rows. Then nothing has changed.
    pub fn push_rows(&mut self, rows: &BitRows) -> Result<(), AllocError>
        ensures added { OnOk result (self.new ≡ self.old ++ rows.now) }
        ensures unchanged { OnErr result (self.new ≡ self.old) }
    {
        let (bytes, count, each) = rows.parts();
        self.add(bytes, count, each)
    }

    /// Adds `count` rows of `each` pixels at the end. `bytes` holds them one after another, and each begins at a byte.
    ///
    /// # Errors
    ///
    /// As `push_rows`.
    fn add(&mut self, bytes: &[u8], count: usize, each: usize) -> Result<(), AllocError>
        requires { length bytes.now ≡ count * bytes_for each }
        ensures added { OnOk result (self.new ≡ self.old ++ rows_of_bytes count each bytes.now) }
        ensures unchanged { OnErr result (self.new ≡ self.old) }
    {
        if self.is_reversed {
            return Err(AllocError);
        }
        if self.count > 0 && self.each != each {
            return Err(AllocError);
        }
        let Some(total) = self.count.checked_add(count) else {
            return Err(AllocError);
        };
        self.bytes.extend_from_slice(bytes)?;
        self.each = each;
        self.count = total;
        Ok(())
    }

    /// Reverses the order of the rows.
    pub fn reverse(&mut self)
        ensures { self.new ≡ reverse self.old }
    {
        self.is_reversed = !self.is_reversed;
    }

    /// Returns the bytes of row `at` from byte `byte` on, and any bytes that are held after them.
    #[inline]
    pub(crate) fn bytes_from(&self, at: usize, byte: usize) -> &[u8]
        requires row { at < length self.now }
        requires byte { byte ≤ bytes_for (length (get_or self.now at [])) }
        ensures enough { bytes_for (length (get_or self.now at [])) ≤ byte + length result.now }
        ensures held { HoldsFrom byte (get_or self.now at []) result.now }
    {
        let place = if self.is_reversed {
            self.count - 1 - at
        } else {
            at
        };
        &self.bytes[place * self.each.div_ceil(8) + byte..]
    }
}
