//! Images as streams of messages, and the devices that bytes come from and go to.
//!
//! A stream of Netpbm images passes through a program as messages: the head of an image, its rows
//! top to bottom, its end, and at last the end of the stream. `Place` says which message may come
//! next. The images are those of pbm(5), pgm(5), ppm(5) and pam(5).
#![tactic(auto)]

pub mod characters;
mod copies;
mod device;
mod format;
mod head;
pub mod laws;
pub mod limits;
mod message;
mod packet;
mod part;
mod place;
mod repeated_rows;
mod rows;
mod sample_width;
mod shape;

pub use device::{BytesIn, BytesOut, Device, DeviceFailed, write_all};
pub use format::{Form, Format};
pub use head::{Head, HeadFault};
pub use message::{Ending, Message};
pub use packet::Packet;
pub use part::Part;
pub use place::Place;
pub use pnm_samples::{BitRows, Bits, SampleSlice, SampleVec, Samples};
pub use repeated_rows::RepeatedRows;
pub use rows::{RowSlice, RowVec, Rows};
pub use sample_width::SampleWidth;
pub use shape::{Kind, Shape};
