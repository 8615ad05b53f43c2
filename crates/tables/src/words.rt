// Lists of words: an item, read inside and past the end, and sums.
ghost use Rattle.std.specs.Prelude.{◌≡◌, ℕ, ◌+◌, ◌-◌, ◌≤◌, ◌^◌, length, get_or};
ghost use Rattle.model.specs.Limits.{max_starts};
ghost use Rattle.tables.specs.Indexed.{Summed};

// An item of a list, and `or` past its end.
pub fn item<T: Copy>(s: &[T], i: usize, or: T) -> T
    ensures { result ≡ get_or s.now i or }
{
    s.get(i).copied().unwrap_or(or)
}

// Each place the sum of those up to it.
pub(crate) fn sum_up(list: &mut [u32])
    requires few { length list.old ≤ max_starts }
    requires first { get_or list.old 0 0 ≡ 0 }
    requires small { (k : ℕ) → get_or list.old k 0 ≤ 2 ^ 20 }
    ensures { Summed (λ i. get_or list.old (i + 1) 0) (length list.old - 1) list.new }
{
    let mut sum = 0;
    for x in list.iter_mut() {
        sum += *x;
        *x = sum;
    }
}
