//! Columns of a batch that are given together.

ghost use Rattle.std.specs.Prelude.{◌≡◌, ◌+◌, ◌++◌, [], ℕ, IfOk, IfErr, IfNone, IsTrue, IsFalse, reverse};
ghost use Rattle.pnm_tools.specs.declared.fault.ToolFault.TheVariants.{Memory};
ghost use Rattle.pnm_image.specs.Rows.{rows_list};
ghost use Rattle.pnm_transpose.specs.Internal.HeldColumns.{HasTaken, HoldsWithin};

use pnm_image::{RowSlice, RowVec, Rows, Samples};
use pnm_tools::{ToolFault, count_together};

/// The most rows that `next_columns` gives together.
const MOST_ROWS: u32 = 256;

/// The most samples of a column of bytes or words that is given together with others. A longer one costs more to copy
/// than to hand over by itself.
const MOST_SAMPLES: usize = 1024;

/// Pops columns from the end of `batch`: several together if they are short and of the same length and width, or one.
/// The only fault is `Memory`.
pub(crate) fn next_columns(batch: &mut Vec<Samples>) -> Result<Option<Rows>, ToolFault>
    ensures given { IfOk result (λ rows. reverse batch.old.items ≡ rows_list rows ++ reverse batch.new.items) }
    ensures all { IfOk result (λ rows. IfNone rows (batch.new.items ≡ [])) }
    ensures refused { IfErr result (λ fault. fault ≡ Memory) }
{
    let Some(first) = batch.pop() else {
        return Ok(None);
    };
    let first = Rows::one(first);
    let most = most_like(&first);
    let mut bound = first.bound();
    let (mut held, mut count, each) = first.into_parts();
    while count < most {
        if !take_next(batch, &mut held, &mut bound, each)? {
            break;
        }
        count += 1;
    }
    Ok(Some(Rows::new(held, bound, count, each)))
}

/// Returns how many columns like this one are given together.
fn most_like(first: &Rows) -> u32 {
    let each = first.row_length();
    match first.as_slice() {
        RowSlice::Bytes(_) | RowSlice::Words(_) if each > MOST_SAMPLES => 1,
        _ => count_together(each, MOST_ROWS),
    }
}

/// Moves the next column of a batch to the end of `held`, whose columns have `each` samples and none above `bound`.
/// Returns false if no column is left, or if the length or the width of the next one differs: then it stays in the
/// batch. The only fault is `Memory`.
fn take_next(
    batch: &mut Vec<Samples>,
    held: &mut RowVec,
    bound: &mut u32,
    each: usize,
) -> Result<bool, ToolFault>
    ensures taken { IfOk result (λ done. IsTrue done → (count : ℕ)
        → HoldsWithin count each bound.old held.old
        → HasTaken count each held.old batch.old.items (count + 1) held.new batch.new.items
        × HoldsWithin (count + 1) each bound.new held.new) }
    ensures same { IfOk result (λ done. IsFalse done → (count : ℕ)
        → HoldsWithin count each bound.old held.old
        → HasTaken count each held.old batch.old.items count held.new batch.new.items
        × HoldsWithin count each bound.new held.new) }
    ensures refused { IfErr result (λ fault. fault ≡ Memory) }
{
    let Some(next) = batch.pop() else {
        return Ok(false);
    };
    if next.len() != each {
        batch.push(next)?;
        return Ok(false);
    }
    let next = Rows::one(next);
    if !held.append(next.as_slice())? {
        batch.push(next.into_first())?;
        return Ok(false);
    }
    *bound = (*bound).max(next.bound());
    Ok(true)
}
