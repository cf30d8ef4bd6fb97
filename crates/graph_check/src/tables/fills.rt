//! Tables of which only the first entries are used.

ghost use Rattle.std.specs.Prelude.{◌≡◌, ℕ, ◌<◌, ◌≤◌, length, slice_index_or};

pub(crate) fn fill_first<T: Copy>(table: &mut [T], count: usize, value: T)
    requires { count ≤ length table.old }
    ensures { (k : ℕ) (other : T) → k < count → slice_index_or table.new k other ≡ value }
{
    for k in 0..count {
        table[k] = value;
    }
}
