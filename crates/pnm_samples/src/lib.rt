//! Rows of samples, held as wide as they have to be: packed bits, bytes or words.
//!
//! A row is a list of numbers, whatever form it is held in. The samples of PBM are packed eight a byte, as in a file;
//! those of images up to maxval 255 are bytes, and all others words of 16 bits.
#![tactic(auto)]

mod bit_rows;
mod bits;
mod block;
mod bounds;
mod packing;
mod pixel_rows;
mod row_order;
mod sample;
mod samples;
mod transpose;
mod widths;

pub use bit_rows::BitRows;
pub use bits::Bits;
pub use bounds::{are_bytes_within, are_words_within, greatest, greatest_byte};
pub use packing::pack;
pub use pixel_rows::PixelRows;
pub use row_order::reverse_rows;
pub use sample::Sample;
pub use samples::{SampleSlice, SampleVec, Samples};
pub use transpose::{columns, lanes_beside};
pub use widths::{bytes_to_words, words_to_bytes};
