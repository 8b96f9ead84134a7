//! Messages as the bytes of Netpbm images, in raw or in plain form.
//!
//! `Sink` takes the messages of a stream of images in turn, and writes each at once: the header of
//! an image, and its rows. The formats are those of pbm(5), pgm(5), ppm(5) and pam(5).
#![tactic(auto)]

mod fault;
mod header;
pub mod laws;
mod numerals;
mod pixels;
mod plain;
mod raw;
mod row;
mod rows;
mod sink;
mod write_buffer;

pub use fault::SinkFault;
pub use pnm_image::Form;
pub use sink::Sink;
pub use write_buffer::WriteBuffer;
