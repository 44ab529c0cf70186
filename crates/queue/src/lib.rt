// The priority queue of the search: one entry a node, behind one contract (pop the first least entry; replace an entry).
// `tree` is a tournament of the entries' keys, so that neither looks at all entries. `cells`, `tree` and n go side by side, as a list and its n do in `columns`.
#![tactic(auto)]

ghost use Rattle.std.specs.Prelude.{◌≡◌, ℕ, ◌+◌, ◌*◌, ◌≤◌, ◌<◌, length, get_or, set};
ghost use Rattle.columns.specs.Columns.{Only};
ghost use Rattle.queue.specs.Columns.{WIDTH, SUM, sums};
ghost use Rattle.queue.specs.Queue.{NODES, top as top_s, popped, after_pop};
ghost use Rattle.queue.specs.Index.{LeastIn, Tree, Indexed, key as key_s};

pub const NODES: usize = 4096;

// The column of the sums, behind those of scores, estimates and predecessors.
pub const SUM: usize = 3;

pub const UNSET: u64 = 18446744073709551615;

// Sums from 2^51 on have no key.
const TALL: u64 = 2251799813685248;

// The first least entry by a scan.
fn scan(cells: &[u64], n: usize) -> usize
    requires { (0 < n) × (n * WIDTH ≤ length cells.now) }
    ensures { LeastIn (sums n cells.now) 0 n result }
{
    let mut best = 0;
    for i in 1..n {
        if columns::get(cells, n, SUM, i) < columns::get(cells, n, SUM, best) {
            best = i;
        }
    }
    best
}

// The first least entry: the tree's least key tells it, unless no sum has a key.
fn top(cells: &[u64], tree: &[u64], n: usize) -> usize
    requires { Indexed (sums n cells.now) tree.now × (n * WIDTH ≤ length cells.now) }
    ensures { (result ≡ top_s (sums n cells.now)) × (result < n) }
{
    let x = tree[1];
    if x < UNSET {
        (x % 4096) as usize
    } else {
        scan(cells, n)
    }
}

// The key of the node v with the sum f.
fn key(f: u64, v: usize) -> u64
    requires { v < NODES }
    ensures { result ≡ key_s f v }
{
    if f < TALL {
        f * 4096 + (v as u64)
    } else {
        UNSET
    }
}

// Replaces the key of the node v of n, and goes up.
fn raise(tree: &mut [u64], n: usize, v: usize, x: u64)
    requires { Tree n tree.old × (v < n) × (n ≤ NODES) }
    ensures { Tree n tree.new × ((j : ℕ) → n ≤ j → get_or tree.new j 0 ≡ get_or (set tree.old (n + v) x) j 0) }
{
    let mut k = n + v;
    let mut best = x;
    tree[k] = best;
    // k is halved: no range counts so.
    while 1 < k {
        best = best.min(tree[k + 1 - 2 * (k % 2)]);
        k /= 2;
        tree[k] = best;
    }
}

// Replaces the entry of the node v.
pub fn put(cells: &mut [u64], tree: &mut [u64], n: usize, v: usize, f: u64)
    requires { Indexed (sums n cells.old) tree.old × (v < n) × (n * WIDTH ≤ length cells.old) }
    ensures { (sums n cells.new ≡ set (sums n cells.old) v f) × Only n SUM cells.old cells.new × Indexed (sums n cells.new) tree.new }
{
    columns::put(cells, n, SUM, v, f);
    raise(tree, n, v, key(f, v));
}

// Takes the first least entry out.
pub fn pop_least(cells: &mut [u64], tree: &mut [u64], n: usize) -> Option<usize>
    requires { Indexed (sums n cells.old) tree.old × (n * WIDTH ≤ length cells.old) }
    ensures value { result ≡ popped (sums n cells.old) }
    ensures cells_value { (sums n cells.new ≡ after_pop (sums n cells.old)) × Only n SUM cells.old cells.new × Indexed (sums n cells.new) tree.new }
{
    let r = top(cells, tree, n);
    let f = columns::get(cells, n, SUM, r);
    put(cells, tree, n, r, UNSET);
    if f < UNSET { Some(r) } else { None }
}
