//! Images whose samples are made by a formula, of many sizes, kinds and maxvals.

use super::steps::{Step, pass_one};
use super::tasks::{Task, add_answers};
use pnm_image::{Kind, Message, SampleWidth, Shape};
use pnm_test_support::{Sweep, Unmade, cut_number, cut_pair, head_of, held, number_of};
use pnm_tools::{Filter, Tool};
use std::alloc::{AllocError, Global};

/// The kind of an image, its maxval, how wide its samples are held, and its planes.
type ImageType = (Kind, u32, SampleWidth, u32);

/// Each way to hold samples that fits them; then one to five planes of bits, of bytes and of words.
const IMAGE_TYPES: [ImageType; 30] = [
    (Kind::Bit, 1, SampleWidth::Bits, 1),
    (Kind::Bit, 1, SampleWidth::Bytes, 1),
    (Kind::Bit, 1, SampleWidth::Words, 1),
    (Kind::Pam, 1, SampleWidth::Bits, 2),
    (Kind::Pam, 1, SampleWidth::Bytes, 2),
    (Kind::Pam, 1, SampleWidth::Words, 2),
    (Kind::Pam, 1, SampleWidth::Bits, 3),
    (Kind::Pam, 1, SampleWidth::Bytes, 3),
    (Kind::Pam, 1, SampleWidth::Words, 3),
    (Kind::Gray, 200, SampleWidth::Bytes, 1),
    (Kind::Gray, 200, SampleWidth::Words, 1),
    (Kind::Color, 255, SampleWidth::Bytes, 3),
    (Kind::Color, 255, SampleWidth::Words, 3),
    (Kind::Gray, 256, SampleWidth::Words, 1),
    (Kind::Color, 1000, SampleWidth::Words, 3),
    (Kind::Pam, 1, SampleWidth::Bits, 1),
    (Kind::Pam, 1, SampleWidth::Bits, 2),
    (Kind::Pam, 1, SampleWidth::Bits, 3),
    (Kind::Pam, 1, SampleWidth::Bits, 4),
    (Kind::Pam, 1, SampleWidth::Bits, 5),
    (Kind::Pam, 200, SampleWidth::Bytes, 1),
    (Kind::Pam, 200, SampleWidth::Bytes, 2),
    (Kind::Pam, 200, SampleWidth::Bytes, 3),
    (Kind::Pam, 200, SampleWidth::Bytes, 4),
    (Kind::Pam, 200, SampleWidth::Bytes, 5),
    (Kind::Pam, 1000, SampleWidth::Words, 1),
    (Kind::Pam, 1000, SampleWidth::Words, 2),
    (Kind::Pam, 1000, SampleWidth::Words, 3),
    (Kind::Pam, 1000, SampleWidth::Words, 4),
    (Kind::Pam, 1000, SampleWidth::Words, 5),
];

/// Returns the sample in this column, row and plane of an image of this shape. At maxval 65,535, a sample shows its
/// column, row and plane in images of up to 32 columns, 5 rows and 256 planes, or of colours of up to 10 columns. At
/// other maxvals, samples come in no order.
fn sample_at(shape: Shape, x: u32, y: u32, plane: u32) -> u16 {
    let (across, down, deep, shift) = match (shape.maxval, shape.kind) {
        (65_535, Kind::Color) => (10, 100, 1, 0),
        (65_535, _) => (300, 10_000, 1, 0),
        _ => (40_503, 30_011, 50_021, 7),
    };
    let place = x
        .wrapping_mul(across)
        .wrapping_add(y.wrapping_mul(down))
        .wrapping_add(plane.wrapping_mul(deep))
        .wrapping_shr(shift);
    let sample = place.checked_rem(shape.maxval.wrapping_add(1));
    (sample.unwrap_or(0) % 65_536) as u16
}

/// Returns a row of a made image.
fn row_of(alloc: Global, shape: Shape, y: u32) -> Result<Vec<u16>, AllocError> {
    let mut samples = Vec::new(alloc);
    for x in 0..shape.width {
        for plane in 0..shape.depth {
            samples.push(sample_at(shape, x, y, plane))?;
        }
    }
    Ok(samples)
}

/// Adds all that a tool at work gives for a made image, or that what it cuts lies outside the image.
pub fn feed_image<F: Filter>(
    alloc: Global,
    state: &mut F,
    shape: Shape,
    sample_width: SampleWidth,
    out: &mut String,
) -> Result<(), Unmade> {
    let tuple_type: &[u8] = if shape.kind == Kind::Pam { b"A B" } else { b"" };
    let head = head_of(alloc, shape, tuple_type)?;
    pass_one(alloc, state, Step::Passes, Message::Begin(head), out)?;
    if out.as_str().starts_with(" CutOutside") {
        return Ok(());
    }
    for y in 0..shape.height {
        let row = row_of(alloc, shape, y)?;
        let row = held(alloc, row.as_slice(), sample_width)?;
        pass_one(alloc, state, Step::Passes, Message::Row(row), out)?;
    }
    Ok(pass_one(alloc, state, Step::Passes, Message::ImageEnd, out)?)
}

/// Adds what a tool at work gives for the end of the stream, if `is_ended` is true.
pub fn feed_end<F: Filter>(
    alloc: Global,
    state: &mut F,
    is_ended: bool,
    out: &mut String,
) -> Result<(), Unmade> {
    if is_ended {
        pass_one(alloc, state, Step::Passes, Message::StreamEnd, out)?;
    }
    Ok(())
}

/// Adds a sweep of a tool at work over PAM images of these columns, rows and planes, one after another.
pub fn write_stream<F: Filter>(
    alloc: Global,
    state: &mut F,
    text: &[u8],
    out: &mut String,
) -> Result<(), Unmade> {
    let mut sweep = Sweep::new();
    let mut rest = text;
    for _ in 0..text.len() {
        if rest.is_empty() {
            break;
        }
        let (shape, after) = cut_sizes(rest);
        let mut answers = String::new(alloc);
        feed_image(alloc, state, shape, SampleWidth::Words, &mut answers)?;
        sweep.add(answers.as_str());
        rest = after;
    }
    sweep.solve(out)?;
    feed_end(alloc, state, true, out)
}

/// Returns the shape of an image with the columns, rows and planes that the text begins with, and what follows them.
fn cut_sizes(text: &[u8]) -> (Shape, &[u8]) {
    let (width, rest) = cut_number(text);
    let (height, rest) = cut_number(rest);
    let (depth, rest) = cut_number(rest);
    let shape = Shape {
        kind: Kind::Pam,
        width: number_of(width),
        height: number_of(height),
        depth: number_of(depth),
        maxval: 65_535,
    };
    (shape, rest)
}

/// Adds a sweep of a tool over images of these types, widths and heights.
pub fn write_types(
    alloc: Global,
    tool: &Tool,
    text: &[u8],
    out: &mut String,
) -> Result<(), Unmade> {
    let (first_type, last_type, rest) = cut_pair(text);
    let (first_width, last_width, rest) = cut_pair(rest);
    let (first_height, last_height, _) = cut_pair(rest);
    let mut sweep = Sweep::new();
    for width in number_of(first_width)..=number_of(last_width) {
        for height in number_of(first_height)..=number_of(last_height) {
            for number in first_type..=last_type {
                if let Some(image_type) = IMAGE_TYPES.get(number) {
                    let task = task_of(*image_type, width, height);
                    add_answers(alloc, &mut sweep, tool, task)?;
                }
            }
        }
    }
    Ok(sweep.solve(out)?)
}

/// Returns the task of a made image by itself.
fn task_of(image_type: ImageType, width: u32, height: u32) -> Task<'static> {
    let (kind, maxval, sample_width, depth) = image_type;
    let shape = Shape {
        kind,
        width,
        height,
        depth,
        maxval,
    };
    Task::Image(shape, sample_width, true)
}
