//! The bytes of Netpbm images as packets.
//!
//! `Source` reads a stream of images of `P1` to `P7`, raw or plain, and gives its packets in turn, or
//! the one fault of the text. The formats are those of pbm(5), pgm(5), ppm(5) and pam(5).
#![tactic(auto)]

mod buffered_reader;
mod comments;
mod decimal;
mod ends;
mod fault;
mod fields;
mod header;
mod held_rows;
pub mod laws;
mod leading;
mod line;
mod open_reader;
mod pam;
mod pixel;
mod plain;
mod raster;
mod raw;
mod scan;
mod scan_status;
mod sizes;
mod source;
mod spare_rows;
mod units;

pub use buffered_reader::ReadBuffer;
pub use ends::image_end;
pub use fault::InputFault;
pub use source::Source;
pub use spare_rows::SpareRows;
