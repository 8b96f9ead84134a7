//! Plain images of one made row, of many widths.

use super::sinks::write_stream;
use pnm_image::{Device, Kind, Message, Packet, SampleWidth, Shape};
use pnm_test_support::{
    Sweep, Unmade, cut_number, cut_pair, cut_word, head_of, held, number_of, write_text,
};
use pnm_write::Form;
use std::alloc::{AllocError, Global};

/// Numbers of one to five digits, in an order in which each comes at many places of a line.
const NUMBERS: [u16; 13] = [
    7, 65_535, 42, 255, 0, 4096, 10, 999, 9, 10_000, 100, 256, 1000,
];

/// `count` samples, none above the maxval.
fn row_of(
    alloc: Global,
    count: usize,
    shift: usize,
    maxval: usize,
) -> Result<Vec<u16>, AllocError> {
    let most = u16::try_from(maxval).unwrap_or(u16::MAX);
    let mut row = Vec::new(alloc);
    for x in 0..count {
        row.push(NUMBERS[x.wrapping_add(shift) % 13].min(most))?;
    }
    Ok(row)
}

/// Pixels of made bytes, of whose bits 1 is black.
fn pixels_of(alloc: Global, width: usize, first: u8) -> Result<Vec<u16>, AllocError> {
    let mut row = Vec::new(alloc);
    let mut byte = first;
    for x in 0..width {
        let is_white = byte >> (7 - x % 8) & 1 == 0;
        row.push(u16::from(is_white))?;
        if x % 8 == 7 {
            byte = byte.wrapping_mul(5).wrapping_add(first);
        }
    }
    Ok(row)
}

/// Adds a sweep over rows of numbers of these widths and shifts: of grays, or of colours.
pub fn write_numbers(alloc: Global, text: &[u8], out: &mut String) -> Result<(), Unmade> {
    let (word, rest) = cut_word(text);
    if word == b"Color".as_slice() {
        return write_sweep(alloc, Kind::Color, rest, out);
    }
    write_sweep(alloc, Kind::Gray, rest, out)
}

/// Adds a sweep over rows of these widths: of pixels of bytes from this one on; or of numbers up to this one, and of
/// these shifts.
pub fn write_sweep(alloc: Global, kind: Kind, text: &[u8], out: &mut String) -> Result<(), Unmade> {
    let (number, rest) = cut_number(text);
    let (first_width, last_width, rest) = cut_pair(rest);
    let (first_shift, last_shift, _) = cut_pair(rest);
    let mut sweep = Sweep::new();
    for width in first_width..=last_width {
        for shift in first_shift..=last_shift {
            add_images(alloc, &mut sweep, kind, number, width, shift)?;
        }
    }
    Ok(sweep.solve(out)?)
}

/// Adds images of a row, however it is held: as bits if it has pixels, as bytes if it fits in bytes, and as words.
fn add_images(
    alloc: Global,
    sweep: &mut Sweep,
    kind: Kind,
    number: usize,
    width: usize,
    shift: usize,
) -> Result<(), Unmade> {
    let (maxval, depth) = match kind {
        Kind::Bit => (1, 1),
        Kind::Color => (number, 3),
        _ => (number, 1),
    };
    let row = match kind {
        Kind::Bit => pixels_of(alloc, width, (number % 256) as u8)?,
        _ => row_of(alloc, width.wrapping_mul(depth), shift, maxval)?,
    };
    let shape = Shape {
        kind,
        width: number_of(width),
        height: 1,
        depth: number_of(depth),
        maxval: number_of(maxval),
    };
    for sample_width in [SampleWidth::Bits, SampleWidth::Bytes, SampleWidth::Words] {
        if fits(shape, sample_width) {
            add_image(alloc, sweep, shape, row.as_slice(), sample_width)?;
        }
    }
    Ok(())
}

/// Whether samples of the image may be held in this width.
fn fits(shape: Shape, sample_width: SampleWidth) -> bool {
    match sample_width {
        SampleWidth::Bits => shape.kind == Kind::Bit,
        SampleWidth::Bytes => shape.maxval < 256,
        SampleWidth::Words => true,
    }
}

/// Adds what is written of an image of this one row, held in this width.
fn add_image(
    alloc: Global,
    sweep: &mut Sweep,
    shape: Shape,
    row: &[u16],
    sample_width: SampleWidth,
) -> Result<(), Unmade> {
    let all = packets_of(alloc, shape, row, sample_width)?;
    let mut out = String::new(alloc);
    let writer = Device::new(Vec::new(alloc));
    let writer = write_stream(alloc, writer, Form::Plain, all.as_slice(), false, &mut out)?;
    write_text(&mut out, writer.into_inner().as_slice())?;
    sweep.add(out.as_str());
    Ok(())
}

/// The packets of an image of this one row, held in this width.
fn packets_of(
    alloc: Global,
    shape: Shape,
    row: &[u16],
    sample_width: SampleWidth,
) -> Result<Vec<Packet>, Unmade> {
    let mut all = Vec::new(alloc);
    all.push(Packet::from(Message::Begin(head_of(alloc, shape, b"")?)))?;
    all.push(Packet::from(Message::Row(held(alloc, row, sample_width)?)))?;
    all.push(Packet::from(Message::ImageEnd))?;
    all.push(Packet::from(Message::StreamEnd))?;
    Ok(all)
}
