//! The order of rows that are held one after another.

ghost use Rattle.std.specs.Prelude.{◌≡◌, ◌*◌, length};
ghost use Rattle.pnm_samples.specs.Cuts.{last_first};

/// Reverses the order of `count` rows of `each` samples, in place: rows equally far from either end change places.
pub fn reverse_rows<T: Copy>(samples: &mut [T], count: usize, each: usize)
    requires { length samples.old ≡ count * each }
    ensures { samples.new ≡ last_first count each samples.old }
{
    for row in 0..count / 2 {
        let (first, last) = (row * each, (count - 1 - row) * each);
        let (front, back) = samples.split_at_mut(last);
        front[first..first + each].swap_with_slice(&mut back[..each]);
    }
}
