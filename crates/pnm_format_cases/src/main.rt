//! Prints what rows hold, what is read of texts, and what is written of messages. A line of standard input is a word,
//! and what it is about. Escapes, and the form of messages, are those of `pnm_test_support`. A line that begins with
//! `#` is printed as it is.
//!
//! Of rows of bits, bytes and words (`samples`):
//!
//! - `bits COUNT BYTES`: what a row of COUNT pixels holds (`pixels`), made of BYTES, and what an empty row holds
//! - `new FIRST-LAST`, `invert ..`, `reverse ..`: a sweep over made rows (`made`) of FIRST to LAST pixels, unchanged,
//!   inverted, and reversed
//! - `take FIRST-LAST`: a sweep over FIRST to LAST pixels of the bytes of 40
//! - `append HELD-HELD START-START COUNT-COUNT`: a sweep over runs of a made row, each after HELD pixels
//! - `repeat FIRST-LAST TIMES-TIMES`: a sweep over made rows whose pixels are repeated
//! - `columns BYTE COUNT-COUNT HEIGHT-HEIGHT`: a sweep over columns of made images, from a byte on
//! - `words SAMPLES`, `bytes SAMPLES`: the greatest sample, and whether the row is within numbers
//! - `pixels COUNT BYTES`: whether the row is within numbers
//! - `bound NUMBER`: whether rows of bytes and of words 3, 9, 0, whose bound is NUMBER, are within numbers
//! - `left MAXVAL SAMPLE`: the maxval minus the sample, as bytes if both are bytes, and as words
//! - `samples WIDTH FIRST-LAST`, `parts WIDTH`: a sweep over made rows of bits, bytes or words, and over parts of one
//!   of 20 samples
//!
//! Of what a source answers (`read`), each message by itself unless it says otherwise:
//!
//! - `text TEXT`: the answers. They are the same however few bytes a read gives, and no read follows one that gave none
//! - `long TEXT`: the answers to a long text, whole and 4,097 bytes a read
//! - `cuts TEXT`: the answers to each prefix of the text, by the least length that has them
//! - `fails TEXT`: the answers if one of the reads of a byte each fails, by the number of reads before it
//! - `reads MOST FAILING TEXT`: the answers, and what each read asked for and got: a read gives at most MOST bytes, and
//!   read FAILING fails, none for 0
//! - `together MOST FAILING TEXT`: the same, what comes together between braces
//! - `reads_by SIZE MOST FAILING TEXT`, `together_by ..`: the same through a buffer of SIZE bytes
//! - `ahead COUNT TEXT`: how many reads of a byte each were made before the first answer, and after each
//! - `held COUNT TEXT`: for each number of bytes a read, for how many of COUNT answers the source rightly tells
//!   whether it will make a read
//! - `width TEXT`: how the samples of the first row are held
//! - `changes SET TEXT`, `inserts SET TEXT`: the number of all texts with a byte of the set in place of another, or
//!   between two others, and the CRC-32 of the answers to them
//! - `image TEXT`, then `streams`, `after TEXT`: how many texts, and the CRC-32 of the answers, to these images one
//!   after another, and to them with a text after them
//!
//! Of what a sink writes, and which messages it refuses (`write`). Messages between braces are put together:
//!
//! - `raw MESSAGES`, `plain MESSAGES`: the faults, how the stream ends, and the bytes, however wide rows are held
//! - `sips FORM MOST WRITE FLUSH MESSAGES`: the faults, how the stream ends, and the bytes if a write takes up to MOST
//!   bytes, and the write after WRITE others and the flush after FLUSH others fail once, `_` for none; the sink is
//!   flushed after each image, and the number of flushes is printed, too
//! - `numbers KIND MAXVAL WIDTH-WIDTH SHIFT-SHIFT`: a sweep over plain images of a made row (`made`), however it is
//!   held
//! - `bitmaps FIRST WIDTH-WIDTH`: a sweep over plain images of pixels of a made row
//!
//! And `names input`, `names output`: the printed faults of sources, and of sinks.
#![tactic(auto)]

mod read;
mod samples;
mod write;

use pnm_test_support::{Solver, Unmade, named, write_all, write_lines};
use std::alloc::Global;

fn main(rt: HostRuntime) -> Result<(), Unmade> {
    let mut formats = Formats {
        images: Vec::new(rt.alloc()),
    };
    write_lines(&rt, &mut formats)
}

/// The solver of these cases.
#[derive(Drop)]
struct Formats {
    /// The raw images so far.
    images: Vec<Vec<u8>>,
}

impl Solver for Formats {
    fn solve(
        &mut self,
        alloc: Global,
        word: &[u8],
        text: &[u8],
        out: &mut String,
    ) -> Result<(), Unmade> {
        if let Some(how) = named(samples::WORDS, word) {
            return samples::solve(alloc, how, text, out);
        }
        if let Some(how) = named(read::WORDS, word) {
            return Ok(read::solve(alloc, how, text, &mut self.images, out)?);
        }
        match named(write::WORDS, word) {
            Some(how) => write::solve(alloc, how, text, out),
            None => write_names(word, text, out),
        }
    }
}

/// Adds the names of the faults of sources or of sinks.
fn write_names(word: &[u8], text: &[u8], out: &mut String) -> Result<(), Unmade> {
    if word != b"names".as_slice() {
        return Err(Unmade);
    }
    if text == b"input".as_slice() {
        return Ok(write_all(out, read::FAULTS)?);
    }
    Ok(write_all(out, write::FAULTS)?)
}
