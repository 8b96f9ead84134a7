//! What a source answers to raw images one after another.

use super::sweeps::{add_each, add_text, set_of};
use pnm_test_support::Sweep;
use std::alloc::{AllocError, Global};

/// What is read of images one after another.
#[derive(Clone, Copy)]
enum Pairs {
    /// Two of them, the second one whole or cut.
    Cut,
    /// Two with a byte between them.
    Parted,
    /// Three.
    Followed,
}

/// Adds the texts one after another.
fn add_together(alloc: Global, sweep: &mut Sweep, texts: &[&[u8]]) -> Result<(), AllocError> {
    let mut whole = Vec::new(alloc);
    for text in texts {
        whole.extend_from_slice(text)?;
    }
    add_text(alloc, sweep, whole.as_slice())
}

/// Adds what is answered to two of the images, the second one whole or cut, to two with a byte between them, and to
/// three.
pub fn write_streams(
    alloc: Global,
    images: &[Vec<u8>],
    out: &mut String,
) -> Result<(), AllocError> {
    for pairs in [Pairs::Cut, Pairs::Parted, Pairs::Followed] {
        write_pairs(alloc, pairs, images, out)?;
    }
    Ok(())
}

/// Adds what is answered to each two of the images.
fn write_pairs(
    alloc: Global,
    pairs: Pairs,
    images: &[Vec<u8>],
    out: &mut String,
) -> Result<(), AllocError> {
    let mut sweep = Sweep::new();
    for first in images {
        for second in images {
            let (first, second) = (first.as_slice(), second.as_slice());
            match pairs {
                Pairs::Cut => add_cuts(alloc, &mut sweep, first, second)?,
                Pairs::Parted => add_parted(alloc, &mut sweep, first, second)?,
                Pairs::Followed => add_followed(alloc, &mut sweep, &[first, second], images)?,
            }
        }
    }
    sweep.solve(out)
}

/// Adds an image with each prefix of another after it.
fn add_cuts(
    alloc: Global,
    sweep: &mut Sweep,
    first: &[u8],
    second: &[u8],
) -> Result<(), AllocError> {
    for length in 0..=second.len() {
        add_together(alloc, sweep, &[first, &second[..length]])?;
    }
    Ok(())
}

/// Adds two images with each byte between them.
fn add_parted(
    alloc: Global,
    sweep: &mut Sweep,
    first: &[u8],
    second: &[u8],
) -> Result<(), AllocError> {
    let every = set_of(alloc, b"all")?;
    add_each(alloc, sweep, every.as_slice(), first, second)
}

/// Adds two images and each of these after them.
fn add_followed(
    alloc: Global,
    sweep: &mut Sweep,
    pair: &[&[u8]; 2],
    images: &[Vec<u8>],
) -> Result<(), AllocError> {
    for third in images {
        add_together(alloc, sweep, &[pair[0], pair[1], third.as_slice()])?;
    }
    Ok(())
}

/// Adds what is answered to a text after each of the images, and after each twice.
pub fn write_after(
    alloc: Global,
    images: &[Vec<u8>],
    text: &[u8],
    out: &mut String,
) -> Result<(), AllocError> {
    let mut sweep = Sweep::new();
    for image in images {
        let image = image.as_slice();
        add_together(alloc, &mut sweep, &[image, text])?;
        add_together(alloc, &mut sweep, &[image, image, text])?;
    }
    sweep.solve(out)
}
