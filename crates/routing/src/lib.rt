// The wires of a net: the root wire between the root pair of its endpoints, and a branch from each other endpoint.
#![tactic(auto)]

mod types;

ghost use Rattle.std.specs.Prelude.{◌≡◌, ◌+◌, ◌*◌, ◌/◌, ◌%◌, ◌<◌, ◌≤◌, cond, eqb, length, get_or};
ghost use Rattle.book.specs.Refusals.{number_of};
ghost use Rattle.fixed.specs.Steps.{gap};
ghost use Rattle.routing.specs.Branches.{tried, fits as fits_in, line_wire, fallback_wire, route_wire, route_branch, put_junction, join_branch};
ghost use Rattle.routing.specs.Lent.{JoinedEnd, KeptRows};
ghost use Rattle.routing.specs.Roots.{slant_of, root_pair};
ghost use Rattle.wire.specs.Lent.{line_in, wires_of, xs_of, ys_of, KeptWires};

use book::Refusal;
pub use types::Joins;
use vertex::JunctionKind;
use wire::{End, Fallback, Line, Place, Wires};

// The size of |dx| - |dy| of the pair p of the places.
fn slant_of(points: &[Place], p: usize) -> u32
    requires { (0 < length points.now) × (p < length points.now * length points.now) }
    ensures { result ≡ slant_of (xs_of points.now) (ys_of points.now) (length points.now) p }
{
    let a = points[p / points.len()];
    let b = points[p % points.len()];
    fixed::gap(fixed::gap(a.x, b.x), fixed::gap(a.y, b.y))
}

// The root pair of two endpoints or more.
pub fn pick_root_path(points: &[Place]) -> (usize, usize)
    requires { (2 ≤ length points.now) × (length points.now ≤ 256) }
    ensures from { result.0 ≡ root_pair (xs_of points.now) (ys_of points.now) (length points.now) / length points.now }
    ensures to { result.1 ≡ root_pair (xs_of points.now) (ys_of points.now) (length points.now) % length points.now }
{
    let n = points.len();
    let mut best = 1;
    for p in 0..n * n {
        if slant_of(points, best) < slant_of(points, p) {
            best = p;
        }
    }
    (best / n, best % n)
}

// Whether v vertices and e ends more keep the limits.
fn fits(n: usize, v: usize, m: usize, e: usize) -> bool
    requires { (n ≤ 512) × (v ≤ 8192) × (m ≤ 4096) × (e ≤ 8192) }
    ensures { result ≡ fits_in n v m e }
{
    (n + v <= 512) & (m + e <= 4096)
}

// Adds a wire along a line of one node or more.
fn line_wire(
    wires: &mut Wires,
    line: Line,
    is_root: bool,
    junction: Option<JunctionKind>,
) -> Result<(), Refusal>
    requires { 0 < length line.path.now }
    ensures value { tried (number_of result) (wires_of wires.new) ≡ line_wire (line_in line.entry) is_root junction (wires_of wires.old) }
    ensures kept { KeptWires wires.old wires.new }
{
    if line.path.len() == 1 {
        return Err(Refusal::PathTooShort);
    }
    if !fits(wires.n, line.vertices(), wires.m, line.path.len() + 1) {
        return Err(Refusal::TooLong);
    }
    wires.push_vertices(line, is_root, junction);
    Ok(())
}

// Adds a wire where there is no line.
fn fallback_wire(
    wires: &mut Wires,
    way: Fallback,
    junction: Option<JunctionKind>,
) -> Result<(), Refusal>
    ensures value { tried (number_of result) (wires_of wires.new) ≡ fallback_wire way.start.x way.start.y way.end.x way.end.y way.along junction (wires_of wires.old) }
    ensures kept { KeptWires wires.old wires.new }
{
    if !fits(wires.n, way.vertices(), wires.m, 2) {
        return Err(Refusal::TooLong);
    }
    wires.push_fallback_vertices(way, junction);
    Ok(())
}

// Adds a wire along a line, or the other way where the line has no node.
pub fn route_wire(
    wires: &mut Wires,
    line: Line,
    way: Fallback,
    is_root: bool,
    junction: Option<JunctionKind>,
) -> Result<(), Refusal>
    ensures value { tried (number_of result) (wires_of wires.new) ≡ route_wire (line_in line.entry) way.start.x way.start.y way.end.x way.end.y way.along is_root junction (wires_of wires.old) }
    ensures kept { KeptWires wires.old wires.new }
{
    if line.path.len() == 0 {
        return fallback_wire(wires, way, junction);
    }
    line_wire(wires, line, is_root, junction)
}

// The end that a branch from `start` joins.
fn joined_end(wires: &Wires, line: Line, start: Place) -> End
    requires { 0 < wires.now.m }
    ensures { JoinedEnd (line_in line.entry) start.x start.y (wires_of wires.now).net result }
{
    if line.path.len() == 0 {
        let nearest = wire::nearest_end(wires.ends, wires.m, start);
        return wires.ends[nearest];
    }
    let end = line.place_at(line.path.len() - 1);
    let first = wire::junction_end(wires.ends, wires.m, end);
    wires.ends[first]
}

impl Joins<'_> {
    // Adds a junction.
    fn push(&mut self, holder: u32, joiner: u32, letter: u32)
        requires { self.old.j < 256 }
        ensures value { self.new.rows.now ≡ put_junction self.old.rows.now self.old.j holder joiner letter }
        ensures count { self.new.j ≡ self.old.j + 1 }
        ensures kept { KeptRows self.old self.new }
    {
        let at = 3 * self.j;
        self.rows[at] = holder;
        self.rows[at + 1] = joiner;
        self.rows[at + 2] = letter;
        self.j += 1;
    }
}

// Adds the branch from `start`, and its junction.
pub fn route_branch(
    wires: &mut Wires,
    joins: &mut Joins,
    line: Line,
    start: Place,
    along: bool,
) -> Result<(), Refusal>
    requires { (0 < wires.old.m) × (joins.old.j < 256) }
    ensures value { tried (number_of result) (wires_of wires.new) ≡ route_branch (line_in line.entry) start.x start.y along (wires_of wires.old) }
    ensures joins_value { joins.new.rows.now ≡ join_branch (line_in line.entry) start.x start.y along (wires_of wires.old) joins.old.rows.now joins.old.j }
    ensures count { joins.new.j ≡ cond (eqb (number_of result) 0) (joins.old.j + 1) joins.old.j }
    ensures kept { KeptWires wires.old wires.new }
    ensures kept_rows { KeptRows joins.old joins.new }
{
    let end = joined_end(wires, line, start);
    let way = Fallback {
        start,
        end: end.at,
        along,
    };
    route_wire(wires, line, way, false, Some(end.kind()))?;
    joins.push(end.vertex, (wires.n - 1) as u32, end.letter);
    Ok(())
}
