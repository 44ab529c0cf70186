// Plain decimals and separators in bytes: read from a lent text, and written into a lent buffer.
#![tactic(auto)]

ghost use Rattle.std.specs.Prelude.{◌≡◌, ◌+◌, ◌-◌, ◌*◌, ◌≤◌, ◌<◌, [], ◌∷◌, length, drop};
ghost use Rattle.decimals.specs.Bytes.{place};
ghost use Rattle.decimals.specs.Decimal.{BASE, amount_of, cap, number_of, summed};
ghost use Rattle.decimals.specs.Write.{Put, digits, field, signed};

pub const TAB: u8 = b'\t';

pub const LF: u8 = b'\n';

const MINUS: u8 = b'-';

const ZERO: u8 = b'0';

// 2^31, above which a coordinate is counted.
pub const BIAS: u32 = 2147483648;

// What a number's word stands above: the word of 0.
pub const BASE: u64 = 4294967296;

// The first place of `key` in `s` from `from` on, or the length.
pub fn find(s: &[u8], from: usize, key: u8) -> usize
    requires { from ≤ length s.now }
    ensures { result ≡ from + place key (drop from s.now) }
{
    let rest = &s[from..];
    from + rest.iter().position(|b| *b == key).unwrap_or(rest.len())
}

// One digit more.
#[tactic(auto, unfolding(crate::specs::Decimal::cap))]
fn more(v: u64, b: u8) -> u64
    requires { (v ≤ BASE) × (48 ≤ b) }
    ensures { result ≡ cap (v * 10 + (b - 48)) }
{
    (v * 10 + (b - ZERO) as u64).min(BASE)
}

// What digits write, cut off at BASE.
#[tactic(auto, using(crate::proofs::Numbers::sums), unfolding(crate::specs::Decimal::cap))]
fn sum_digits(f: &[u8]) -> Option<u64>
    ensures { result ≡ summed 0 f.now }
{
    let mut v: u64 = 0;
    for b in f {
        if !b.is_ascii_digit() {
            return None;
        }
        v = more(v, *b);
    }
    Some(v)
}

// What digits with no leading zero write.
#[tactic(auto, using(crate::proofs::Numbers::amounts))]
fn read_amount(f: &[u8]) -> Option<u64>
    ensures { result ≡ amount_of f.now }
{
    match f {
        [] => None,
        [ZERO] => Some(0),
        [ZERO, ..] => None,
        _ => sum_digits(f),
    }
}

// What a plain decimal writes, as its word: BASE above it.
#[tactic(auto, using(crate::proofs::Numbers::numbers))]
pub fn read_number(f: &[u8]) -> Option<u64>
    ensures { result ≡ number_of f.now }
{
    match f {
        [MINUS, digits @ ..] => {
            let v = read_amount(digits)?;
            if v == 0 { None } else { Some(BASE - v) }
        }
        _ => Some(BASE + read_amount(f)?),
    }
}

// The writers below take a place and return the one behind: a struct of the buffer and its place would need a clause on the lent buffer's name in each.

// How many digits `v` has. Here and below a number loses a digit each turn: no range counts so.
#[tactic(auto, using(crate::proofs::Written::widths))]
fn width(v: u32) -> usize
    ensures { result ≡ length (digits v) }
{
    let mut n: usize = 1;
    let mut w = v;
    while 10 <= w {
        w = w / 10;
        n += 1;
    }
    n
}

// Writes the digits of `v` at `at`; returns the place behind them.
pub fn put_digits(buf: &mut [u8], at: usize, v: u32) -> usize
    requires { at + length (digits v) ≤ length buf.old }
    ensures { Put buf.old at (digits v) buf.new result }
{
    let e = at + width(v);
    let mut i = e;
    let mut w = v;
    while 10 <= w {
        i -= 1;
        buf[i] = ZERO + ((w % 10) as u8);
        w = w / 10;
    }
    buf[at] = ZERO + (w as u8);
    e
}

// Writes the coordinate that lies `u` steps above -2^31.
#[tactic(auto, using(crate::proofs::Written::signed_high))]
pub fn put_step(buf: &mut [u8], at: usize, u: u32) -> usize
    requires { at + length (signed u) ≤ length buf.old }
    ensures { Put buf.old at (signed u) buf.new result }
{
    if u < BIAS {
        buf[at] = MINUS;
        return put_digits(buf, at + 1, BIAS - u);
    }
    put_digits(buf, at, u - BIAS)
}

// Writes the bytes of `s` at `at`.
#[tactic(auto, using(crate::proofs::Written::put_part))]
pub fn put_bytes(buf: &mut [u8], at: usize, s: &[u8]) -> usize
    requires { at + length s.now ≤ length buf.old }
    ensures { Put buf.old at s.now buf.new result }
{
    let e = at + s.len();
    buf[at..e].copy_from_slice(s);
    e
}

// Writes one byte.
#[tactic(auto, using(crate::proofs::Written::put_one))]
pub fn put_byte(buf: &mut [u8], at: usize, b: u8) -> usize
    requires { at < length buf.old }
    ensures { Put buf.old at (b ∷ []) buf.new result }
{
    buf[at] = b;
    at + 1
}

// Writes a tab and the digits of `v`.
pub fn put_digits_field(buf: &mut [u8], at: usize, v: u32) -> usize
    requires { at + length (field (digits v)) ≤ length buf.old }
    ensures { Put buf.old at (field (digits v)) buf.new result }
{
    buf[at] = TAB;
    put_digits(buf, at + 1, v)
}

// Writes a tab and a coordinate.
pub fn put_step_field(buf: &mut [u8], at: usize, u: u32) -> usize
    requires { at + length (field (signed u)) ≤ length buf.old }
    ensures { Put buf.old at (field (signed u)) buf.new result }
{
    buf[at] = TAB;
    put_step(buf, at + 1, u)
}
