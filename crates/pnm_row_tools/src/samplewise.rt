//! Tools that change each sample by itself, at work on rows.

ghost use Rattle.std.specs.Prelude.{ℕ, ◌≡◌, ◌≤◌, ◌+◌, All, IfErr, IfOk, map};
ghost use Rattle.std.specs.List.{range_with_len};
ghost use Rattle.pnm_image.specs.declared.limits.TheConstants.{MAX_MAXVAL};
ghost use Rattle.pnm_image.specs.Heads.{IsWithinLimits};
ghost use Rattle.pnm_row_tools.specs.Internal.EachRow.{IsEachChanged, held_samples};
ghost use Rattle.pnm_row_tools.specs.RowKeeping.{HasTable, IsTable};
ghost use Rattle.pnm_tools.specs.Tools.{IsLawfulTool};

use crate::change::{Computed, LookedUp, change_rows};
use crate::row_tool::RowTool;
use crate::sample_tool::SampleTool;
use pnm_image::{Head, RowVec, Rows, Shape};
use pnm_tools::ToolFault;
use std::alloc::{AllocError, Global};

/// A tool that changes each sample by itself, and a table of the changes if that pays.
#[derive(Drop)]
pub struct Samplewise<T: SampleTool> {
    /// The tool.
    pub tool: T,
    /// What becomes of the samples of the image.
    pub table: Table,
}

/// What becomes of each sample from 0 to the image's maxval.
#[derive(Drop)]
pub enum Table {
    /// No table: a sample costs little, or the image has too few.
    Absent,
    /// What becomes of each sample, by the sample's number.
    Words(Vec<u16>),
}

impl<T: SampleTool> Samplewise<T> {
    /// Creates the tool before the first image.
    pub fn new(tool: T) -> Samplewise<T>
        ensures { result.tool ≡ tool }
    {
        Samplewise {
            tool,
            table: Table::Absent,
        }
    }

    /// Changes each sample of rows of an image of this maxval.
    ///
    /// # Errors
    ///
    /// If there is no memory for samples of another width.
    fn change(
        &self,
        alloc: Global,
        maxval: u32,
        most: u32,
        rows: RowVec,
    ) -> Result<RowVec, AllocError>
        requires lawful { IsLawfulTool (T.tool self.now.tool) }
        requires maxval { (1 ≤ maxval) × (maxval ≤ MAX_MAXVAL) }
        requires most { (most ≤ MAX_MAXVAL) × (most ≡ (T.rule self.now.tool).maxval maxval) }
        requires table { IsTable ((T.rule self.now.tool).sample maxval) maxval self.now.table }
        requires range { All (λ sample. sample ≤ maxval) (held_samples rows) }
        ensures { IfOk result (IsEachChanged ((T.rule self.now.tool).sample maxval) rows) }
    {
        match &self.table {
            Table::Absent => {
                let tool = self.tool;
                change_rows(alloc, Computed { tool, maxval }, maxval, most, rows)
            }
            Table::Words(words) => {
                let table = words.as_slice();
                change_rows(alloc, LookedUp { table }, maxval, most, rows)
            }
        }
    }
}

impl<T: SampleTool> RowTool for Samplewise<T> {
    ghost tool = { λ w. T.tool w.tool };

    ghost ready = { HasTable T.rule };

    ghost nothing_at_end = { λ w s rows _. (T.changes w.tool).no_end s rows };

    fn begin(&mut self, alloc: Global, head: &Head) -> Result<Head, ToolFault> {
        let made = self.tool.head(alloc, head)?;
        let shape = head.shape();
        self.table = if T::IS_COSTLY && is_worth_a_table(shape) {
            Table::Words(words_of(alloc, self.tool, shape.maxval)?)
        } else {
            Table::Absent
        };
        Ok(made)
    }

    /// Changes the rows in place if their samples keep their width.
    fn rows(
        &self,
        alloc: Global,
        shape: Shape,
        _y: u32,
        rows: Rows,
    ) -> Result<Option<Rows>, ToolFault> {
        let (held, count, row_length) = rows.into_parts();
        let most = self.tool.maxval(shape.maxval);
        let changed = self.change(alloc, shape.maxval, most, held)?;
        Ok(Some(Rows::new(changed, most, count, row_length)))
    }
}

/// Returns what becomes of each sample from 0 to the maxval.
fn words_of<T: SampleTool>(alloc: Global, tool: T, maxval: u32) -> Result<Vec<u16>, AllocError>
    requires lawful { IsLawfulTool (T.tool tool) }
    requires maxval { (1 ≤ maxval) × (maxval ≤ MAX_MAXVAL) }
    ensures { IfOk result (λ words. words.items ≡ map ((T.rule tool).sample maxval) (range_with_len 0 (maxval + 1))) }
{
    let mut words = Vec::with_capacity(alloc, maxval as usize + 1)?;
    for sample in 0..maxval + 1 {
        words.push(tool.sample(maxval, sample as u16))?;
    }
    Ok(words)
}

/// Returns true if a table pays. A table computes a sample for each number up to the maxval; without a table, each
/// sample of the image is computed.
fn is_worth_a_table(shape: Shape) -> bool
    requires { IsWithinLimits shape }
{
    shape.row_length() * u64::from(shape.height) > u64::from(shape.maxval)
}
