//! What a source answers to written texts.

mod answers;
mod reads;
mod streams;
mod sweeps;

use pnm_read::InputFault;
use std::alloc::{AllocError, Global};

/// What a case prints.
#[derive(Clone, Copy)]
pub enum How {
    Text,
    Long,
    Cuts,
    Fails,
    Reads,
    ReadsBy,
    Together,
    TogetherBy,
    Ahead,
    Held,
    Width,
    Changes,
    Inserts,
    Image,
    Streams,
    After,
}

/// What a case of each word prints.
pub const WORDS: &[(&[u8], How)] = &[
    (b"text", How::Text),
    (b"long", How::Long),
    (b"cuts", How::Cuts),
    (b"fails", How::Fails),
    (b"reads", How::Reads),
    (b"reads_by", How::ReadsBy),
    (b"together", How::Together),
    (b"together_by", How::TogetherBy),
    (b"ahead", How::Ahead),
    (b"held", How::Held),
    (b"width", How::Width),
    (b"changes", How::Changes),
    (b"inserts", How::Inserts),
    (b"image", How::Image),
    (b"streams", How::Streams),
    (b"after", How::After),
];

/// All faults.
pub const FAULTS: &[InputFault] = &[
    InputFault::EmptyInput,
    InputFault::BadMagic,
    InputFault::HeaderCut,
    InputFault::TooLong,
    InputFault::BadNumber,
    InputFault::ZeroSize,
    InputFault::TooLarge,
    InputFault::BadMaxval,
    InputFault::BadPamLine,
    InputFault::DuplicateField,
    InputFault::MissingField,
    InputFault::RasterCut,
    InputFault::SampleAboveMaxval,
    InputFault::BadSample,
    InputFault::PlainInStream,
    InputFault::ReadFailed,
    InputFault::Memory,
];

/// Adds the answer to a case. `images` holds the raw images so far.
pub fn solve(
    alloc: Global,
    how: How,
    text: &[u8],
    images: &mut Vec<Vec<u8>>,
    out: &mut String,
) -> Result<(), AllocError> {
    match how {
        How::Text => answers::write_text(alloc, text, &[1, 2, 3, 4, 5, 6, 7, 8, 4097], out),
        How::Long => answers::write_text(alloc, text, &[4097], out),
        How::Cuts => answers::write_cuts(alloc, text, out),
        How::Fails => reads::write_fails(alloc, text, out),
        How::Reads | How::ReadsBy | How::Together | How::TogetherBy => reads::write_reads(
            alloc, how, text, out,
        ),
        How::Ahead => reads::write_ahead(alloc, text, out),
        How::Held => reads::write_held(alloc, text, out),
        How::Width => answers::write_width(alloc, text, out),
        How::Changes => sweeps::write_sweep(alloc, text, 1, out),
        How::Inserts => sweeps::write_sweep(alloc, text, 0, out),
        How::Image => Ok(images.push(Vec::from_slice(alloc, text)?)?),
        How::Streams => streams::write_streams(alloc, images.as_slice(), out),
        How::After => streams::write_after(alloc, images.as_slice(), text, out),
    }
}
