//! A tool at work that exchanges columns and rows: pamflip(1) in its ways that do so.
#![tactic(auto)]

mod batch;
mod blocks;
mod flat_rows;
mod row_of;
mod sample_rows;
mod strip;
mod together;
mod transpose;

pub use transpose::Transposer;
