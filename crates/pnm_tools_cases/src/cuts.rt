//! Which columns and rows a cut keeps.

use super::tasks::{Task, add_answers};
use super::tools::{cut_offset, cut_size, write_made_head};
use pnm_image::{Kind, SampleWidth, Shape};
use pnm_test_support::{Sweep, Unmade, cut_number, head_of, number_of};
use pnm_tools::{CutBox, Tool};
use std::alloc::Global;

/// The most columns, or rows, of an image whose cuts are few enough for a sweep.
const SHORT: u32 = 5;

/// The columns of an image, or its rows, and options of a cut along them.
#[derive(Clone, Copy)]
pub struct Axis {
    length: u32,
    start: Option<i32>,
    end: Option<i32>,
    size: Option<u32>,
}

/// Three columns or rows, which are all kept.
const ONE: Axis = Axis {
    length: 3,
    start: None,
    end: None,
    size: None,
};

impl Axis {
    /// Returns the axis that the text spells.
    pub fn of(text: &[u8]) -> Axis {
        let (length, rest) = cut_number(text);
        let (start, rest) = cut_offset(rest);
        let (end, rest) = cut_offset(rest);
        let (size, _) = cut_size(rest);
        Axis {
            length: number_of(length),
            start,
            end,
            size,
        }
    }
}

/// Returns the cut with these options across and down.
fn cut_by(across: Axis, down: Axis) -> Tool {
    Tool::Cut(CutBox {
        left: across.start,
        right: across.end,
        top: down.start,
        bottom: down.end,
        width: across.size,
        height: down.size,
    })
}

/// Adds the head of a cut's result.
fn write_cut_head(alloc: Global, across: Axis, down: Axis, out: &mut String) -> Result<(), Unmade> {
    let tool = cut_by(across, down);
    if !tool.is_lawful() {
        return Ok(out.push_str(" unlawful")?);
    }
    let shape = Shape {
        kind: Kind::Gray,
        width: across.length,
        height: down.length,
        depth: 1,
        maxval: 9,
    };
    let head = head_of(alloc, shape, b"")?;
    write_made_head(alloc, &tool, &head, out)
}

/// Adds the heads of the cut across, of an image of three rows, and down, of three columns.
pub fn write_axis(alloc: Global, axis: Axis, out: &mut String) -> Result<(), Unmade> {
    write_cut_head(alloc, axis, ONE, out)?;
    write_cut_head(alloc, ONE, axis, out)
}

/// Adds a sweep over the cuts of short images, by each of the axes across and each down.
pub fn write_axes(alloc: Global, axes: &[Axis], out: &mut String) -> Result<(), Unmade> {
    let mut sweep = Sweep::new();
    for across in axes {
        for down in axes {
            if across.length <= SHORT && down.length <= SHORT {
                let shape = image(across.length, down.length);
                let task = Task::Image(shape, SampleWidth::Words, false);
                add_answers(alloc, &mut sweep, &cut_by(*across, *down), task)?;
            }
        }
    }
    Ok(sweep.solve(out)?)
}

/// Returns the shape of an image of colours of `width` columns and `height` rows.
fn image(width: u32, height: u32) -> Shape {
    Shape {
        kind: Kind::Color,
        width,
        height,
        depth: 3,
        maxval: 65_535,
    }
}
