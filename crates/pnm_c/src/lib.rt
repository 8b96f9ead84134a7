//! The functions behind `pnmpipe.h`, for C. None has a `requires`: any buffers will do, except a null pointer and a
//! room that overlaps another buffer.
#![tactic(auto)]

mod bytes;
mod exports;
