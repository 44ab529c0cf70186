// Columns of n words each in one lent list, one behind the other. Its n stands beside it: each function over a struct of a list that is written would have to promise that it still holds the same list.
#![tactic(auto)]

ghost use Rattle.std.specs.Prelude.{◌≡◌, ◌+◌, ◌*◌, ◌≤◌, ◌<◌, length, get_or, set, replicate};
ghost use Rattle.columns.specs.Columns.{column, Only};

// The entry v of the w-th column.
pub fn get(list: &[u64], n: usize, w: usize, v: usize) -> u64
    requires { (v < n) × (w * n + n ≤ length list.now) }
    ensures { result ≡ get_or (column w n list.now) v 0 }
{
    list[w * n + v]
}

// Sets the entry v of the w-th column.
pub fn put(list: &mut [u64], n: usize, w: usize, v: usize, x: u64)
    requires { (v < n) × (w * n + n ≤ length list.old) }
    ensures { (column w n list.new ≡ set (column w n list.old) v x) × Only n w list.old list.new }
{
    list[w * n + v] = x;
}

// Fills the w-th column.
pub fn fill(list: &mut [u64], n: usize, w: usize, x: u64)
    requires { w * n + n ≤ length list.old }
    ensures { (column w n list.new ≡ replicate n x) × Only n w list.old list.new }
{
    list[w * n..w * n + n].fill(x);
}
