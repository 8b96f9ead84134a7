//! The number of bytes of a text's first image.

ghost use Rattle.std.specs.Prelude.{◌≡◌, ◌≤◌, ◌*◌};
ghost use Rattle.pnm_image.specs.Heads.{IsWithinLimits};
ghost use Rattle.pnm_image.specs.declared.limits.TheConstants.{MAX_ROW_LENGTH};
ghost use Rattle.pnm_read.specs.Internal.ImageSizes.{TellsSize, TellsSizeAfter};
ghost use Rattle.pnm_read.specs.Rasters.{bytes_in_row};

use crate::fault::InputFault;
use crate::header::{format_named, head_in};
use pnm_image::{Format, SampleWidth, Shape};
use std::alloc::Global;

/// What the first bytes of an image tell of its size.
#[derive(Clone, Copy, Debug, PartialEq, Eq)]
pub enum ImageSize {
    /// The header isn't whole.
    HeaderCut,
    /// The image is raw, and its header and raster have this many bytes.
    Raw(usize),
    /// The header is that of a plain image: only the samples tell where it ends.
    Plain,
}

/// Returns what these bytes, with which an image begins, tell of its size. Only the header is looked at. A plain image
/// may only come first.
///
/// # Errors
///
/// The fault that is found in the header, whatever follows these bytes; or `Memory`.
pub fn image_size(alloc: Global, bytes: &[u8], is_first: bool) -> Result<ImageSize, InputFault>
    ensures { TellsSize is_first bytes.now result }
{
    let [letter, rest @ ..] = bytes else {
        return Ok(ImageSize::HeaderCut);
    };
    if *letter != b'P' {
        return Err(InputFault::BadMagic);
    }
    let [digit, rest @ ..] = rest else {
        return Ok(ImageSize::HeaderCut);
    };
    let format = format_named(*digit, is_first)?;
    size_after(alloc, format, rest)
}

/// Returns the same from the bytes after the magic, which names this format.
fn size_after(alloc: Global, format: Format, bytes: &[u8]) -> Result<ImageSize, InputFault>
    ensures { TellsSizeAfter format bytes.now result }
{
    let Some((head, taken)) = head_in(alloc, format, bytes)? else {
        return Ok(ImageSize::HeaderCut);
    };
    if format.is_plain() {
        return Ok(ImageSize::Plain);
    }
    Ok(ImageSize::Raw(2 + taken + raster_size(head.shape())))
}

/// Returns the number of bytes in a raw raster.
fn raster_size(shape: Shape) -> usize
    requires { IsWithinLimits shape }
    ensures size { result ≡ shape.height * bytes_in_row shape }
    ensures most { result ≤ 16777216 * 33554432 }
{
    shape.height as usize * row_size(shape)
}

/// Returns the number of bytes in a raw row.
fn row_size(shape: Shape) -> usize
    requires { IsWithinLimits shape }
    ensures size { result ≡ bytes_in_row shape }
    ensures most { result ≤ 33554432 }
{
    match SampleWidth::of(shape.kind, shape.maxval) {
        SampleWidth::Bits => (shape.width as usize).div_ceil(8),
        SampleWidth::Bytes => shape.row_length() as usize,
        SampleWidth::Words => 2 * shape.row_length() as usize,
    }
}
