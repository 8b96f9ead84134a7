//! Pixels that are three samples.

ghost use Rattle.std.specs.Prelude.{◌≡◌, ◌≤◌, ◌+◌, ◌∷◌, [], length, take, drop};

/// Returns the pixel whose samples begin at `at`.
#[inline(always)]
pub fn color_at<T: Copy>(row: &[T], at: usize) -> (T, T, T)
    requires { at + 3 ≤ length row.now }
    ensures { result.0 ∷ result.1 ∷ result.2 ∷ [] ≡ take 3 (drop at row.now) }
{
    (row[at], row[at + 1], row[at + 2])
}
