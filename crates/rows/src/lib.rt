// Rows of words in a lent slice: copies, searches by a row's first word, and areas, which are a count and then its rows.
// An area is a slice with its rows' width beside it, and no struct, since it lies in the words that C lends.
#![tactic(auto)]

ghost use Rattle.std.specs.Prelude.{◌≡◌, ◌+◌, ◌*◌, ◌≤◌, ◌<◌, length, take};
ghost use Rattle.rows.specs.Rows.{pasted, is_in, found, keys, count, put_last, taken_out, put_in};

// Writes row's words from at on.
#[tactic(auto, unfolding(crate::specs::Rows::pasted))]
pub fn put(d: &mut [u32], at: usize, row: &[u32])
    requires { at + length row.now ≤ length d.old }
    ensures { d.new ≡ pasted d.old at row.now (length row.now) }
{
    d[at..at + row.len()].copy_from_slice(row);
}

// The first of an area's first n rows whose first word is key.
#[tactic(auto, using(crate::proofs::Rows::searches))]
pub fn find(area: &[u32], w: usize, n: usize, key: u32) -> Option<usize>
    requires { (0 < w) × (1 + n * w ≤ length area.now) }
    ensures { result ≡ found key (keys w n area.now) }
{
    for i in 0..n {
        if area[1 + i * w] == key {
            return Some(i);
        }
    }
    None
}

// Whether a row of the area has that first word. It looks at all of them: a loop without an exit is faster.
#[tactic(auto, using(crate::proofs::Rows::searches))]
pub fn holds(area: &[u32], w: usize, key: u32) -> bool
    requires { (0 < w) × (1 + count area.now * w ≤ length area.now) }
    ensures { result ≡ is_in key (keys w (count area.now) area.now) }
{
    let mut r = false;
    for i in 0..area[0] as usize {
        r |= area[1 + i * w] == key;
    }
    r
}

// Writes the first words of an area's first n rows side by side.
#[tactic(auto, using(crate::proofs::Rows::searches))]
pub fn gather(area: &[u32], w: usize, n: usize, words: &mut [u32])
    requires { (0 < w) × (1 + n * w ≤ length area.now) × (n ≤ length words.old) }
    ensures { take n words.new ≡ keys w n area.now }
{
    for i in 0..n {
        words[i] = area[1 + i * w];
    }
}

// Whether key is among the words, looking at all of them.
#[tactic(auto, using(crate::proofs::Rows::searches))]
pub fn among(words: &[u32], key: u32) -> bool
    ensures { result ≡ is_in key words.now }
{
    let mut r = false;
    for word in words {
        r |= *word == key;
    }
    r
}

// Puts a row last in an area.
#[tactic(auto, unfolding(crate::specs::Rows::put_last))]
pub fn append(area: &mut [u32], row: &[u32])
    requires { (count area.old < 65536) × (1 + (count area.old + 1) * length row.now ≤ length area.old) }
    ensures { area.new ≡ put_last (length row.now) row.now area.old }
{
    let n = area[0];
    put(area, 1 + n as usize * row.len(), row);
    area[0] = n + 1;
}

// Takes row i of w words out of an area.
#[tactic(auto, using(crate::proofs::Areas::is_out))]
pub fn remove(area: &mut [u32], w: usize, i: usize)
    requires { (i < count area.old) × (1 + count area.old * w ≤ length area.old) }
    ensures { area.new ≡ taken_out w i area.old }
{
    let n = area[0];
    area.copy_within(1 + (i + 1) * w..1 + n as usize * w, 1 + i * w);
    area[0] = n - 1;
}

// Puts a row in at place i of an area: the rows from there on move up.
#[tactic(auto, using(crate::proofs::Areas::is_in))]
pub fn insert(area: &mut [u32], i: usize, row: &[u32])
    requires { (i ≤ count area.old) × (count area.old < 65536) × (1 + (count area.old + 1) * length row.now ≤ length area.old) }
    ensures { area.new ≡ put_in (length row.now) i row.now area.old }
{
    let n = area[0];
    let w = row.len();
    let a = 1 + i * w;
    area.copy_within(a..1 + n as usize * w, a + w);
    put(area, a, row);
    area[0] = n + 1;
}
