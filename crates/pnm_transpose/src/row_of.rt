//! The samples of a row, all of one type.

ghost use Rattle.std.specs.Prelude.{◌≡◌};

use std::marker::Model;

/// The samples of a row.
#[derive(Drop)]
pub(crate) struct RowOf<T> {
    samples: Vec<T>,
}

impl<T> Model for RowOf<T> {
    ghost use Rattle.std.specs.Prelude.{List};

    ghost Value = { List T };

    ghost view = { λ r. r.samples.items };
}

impl<T> RowOf<T> {
    /// Takes the samples that the vector holds, without a copy.
    pub fn new(samples: Vec<T>) -> RowOf<T>
        ensures { result ≡ samples.items }
    {
        RowOf { samples }
    }

    /// Returns the samples.
    pub fn as_slice(&self) -> &[T]
        ensures { result.now ≡ self.now }
    {
        self.samples.as_slice()
    }
}
