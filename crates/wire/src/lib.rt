// One wire of a net: its vertices on the page, and the ends that it offers to later wires of the net.
#![tactic(auto)]

mod types;

ghost use Rattle.std.specs.Prelude.{◌≡◌, ◌+◌, ◌*◌, ◌-◌, ◌<◌, ◌≤◌, cond, eqb, false, Some, length, get_or};
ghost use Rattle.vertex.specs.Kinds.{letter_of};
ghost use Rattle.vertex.specs.Pages.{carried};
ghost use Rattle.vertex.specs.declared.VertexKind.TheVariants.{WireEnd};
ghost use Rattle.wire.specs.Ends.{junction_end, nearest_end};
ghost use Rattle.wire.specs.Lines.{goes_on, kept_to};
ghost use Rattle.wire.specs.Wires.{wires, push_vertex, push_end, push_dummies, push_start, push_start_ends, push_corner, push_node, push_nodes, push_vertices, line_vertices, line_ends, corner_x, corner_y};
ghost use Rattle.wire.specs.Lent.{line_in, wires_of, words, bent_in, added_by, bend_in, fallback_wire_in, fallback_in, KeptWires};
ghost use Rattle.fixed.specs.Steps.{manhattan};

pub use types::{End, Fallback, Line, Place, Wires};
use vertex::{JunctionKind, Vertex, VertexKind};

// The letter C.
const CORNER: u32 = 67;

impl Line<'_> {
    // The place of the node k.
    pub fn place_at(self, k: usize) -> Place
        requires { k < length self.path.now }
        ensures x_value { result.x ≡ get_or (line_in self.entry).x k 0 }
        ensures y_value { result.y ≡ get_or (line_in self.entry).y k 0 }
    {
        let node = self.path[k] as usize;
        Place {
            x: self.graph.x(node),
            y: self.graph.y(node),
        }
    }

    // Whether the node i goes straight on.
    fn is_straight(self, i: usize) -> bool
        requires { (0 < i) × (i < length self.path.now) }
        ensures { result ≡ goes_on (line_in self.entry) i }
    {
        let onward = path_finding::direction(self.graph, self.path, i);
        let before = path_finding::direction(self.graph, self.path, i - 1);
        (i + 1 < self.path.len()) & (onward == before)
    }

    // The vertices that a line adds: its start, two dummies, and its kept nodes behind the first.
    pub fn vertices(self) -> usize
        requires { 0 < length self.path.now }
        ensures { result ≡ line_vertices (line_in self.entry) }
    {
        let mut total = 3;
        for i in 1..self.path.len() {
            if !self.is_straight(i) {
                total += 1;
            }
        }
        total
    }
}

impl Wires<'_> {
    // Adds a vertex.
    fn push_vertex(&mut self, at: Place, kind: VertexKind)
        requires { self.old.n < 512 }
        ensures value { wires_of self.new ≡ wires (push_vertex at.x at.y kind (wires_of self.old).page) (wires_of self.old).net }
        ensures kept { KeptWires self.old self.new }
    {
        let vertex = Vertex {
            x: at.x,
            y: at.y,
            kind,
        };
        vertex::put_vertex(self.x, self.y, self.letters, self.n, vertex);
        self.n += 1;
    }

    // Adds an end whose junctions the vertex v holds.
    fn push_end(&mut self, at: Place, v: usize, kind: JunctionKind)
        requires { (self.old.m < 4096) × (v < 4294967296) }
        ensures value { wires_of self.new ≡ wires (wires_of self.old).page (push_end at.x at.y v (letter_of (WireEnd (Some kind))) (wires_of self.old).net) }
        ensures kept { KeptWires self.old self.new }
    {
        let letter = u8::from(VertexKind::WireEnd {
            junction: Some(kind),
        });
        self.ends[self.m] = End {
            at,
            vertex: v as u32,
            letter: letter as u32,
        };
        self.m += 1;
    }

    // Adds the two dummies of a line.
    fn push_dummies(&mut self, line: Line)
        requires { (self.old.n + 1 < 512) × (2 ≤ length line.path.now) }
        ensures value { wires_of self.new ≡ wires (push_dummies (line_in line.entry) (wires_of self.old).page) (wires_of self.old).net }
        ensures kept { KeptWires self.old self.new }
    {
        let first = line.place_at(0);
        let next = line.place_at(1);
        let at = Place {
            x: fixed::dummy_pos(first.x, next.x),
            y: fixed::dummy_pos(first.y, next.y),
        };
        self.push_vertex(at, VertexKind::Dummy);
        self.push_vertex(at, VertexKind::Dummy);
    }

    // Adds the start of a line and its dummies.
    fn push_start(&mut self, line: Line, is_root: bool)
        requires { (self.old.n + 2 < 512) × (2 ≤ length line.path.now) }
        ensures value { wires_of self.new ≡ wires (push_start (line_in line.entry) is_root (wires_of self.old).page) (wires_of self.old).net }
        ensures kept { KeptWires self.old self.new }
    {
        self.push_vertex(line.place_at(0), VertexKind::WireStart { is_root });
        self.push_dummies(line);
    }

    // Adds the two ends at the start of a line, whose vertex is v.
    fn push_start_ends(&mut self, line: Line, v: usize)
        requires { (self.old.m + 1 < 4096) × (v < 512) × (0 < length line.path.now) }
        ensures value { wires_of self.new ≡ wires (wires_of self.old).page (push_start_ends (line_in line.entry) v (wires_of self.old).net) }
        ensures kept { KeptWires self.old self.new }
    {
        let at = line.place_at(0);
        self.push_end(at, v, JunctionKind::Corner);
        self.push_end(at, v + 2, JunctionKind::Corner);
    }

    // Adds a corner, and an end on it.
    fn push_corner(&mut self, at: Place, kind: VertexKind)
        requires { (self.old.n < 512) × (self.old.m < 4096) }
        ensures value { wires_of self.new ≡ push_corner at.x at.y kind (wires_of self.old) }
        ensures kept { KeptWires self.old self.new }
    {
        self.push_end(at, self.n, JunctionKind::Corner);
        self.push_vertex(at, kind);
    }

    // Adds the node i of a line.
    fn push_node(&mut self, line: Line, junction: Option<JunctionKind>, i: usize)
        requires i_nonzero { (0 < i) × (i < length line.path.now) }
        requires room { (0 < self.old.n) × (goes_on (line_in line) i ≡ false → self.old.n < 512) × (self.old.m < 4096) }
        ensures value { wires_of self.new ≡ push_node (line_in line.entry) junction i (wires_of self.old) }
        ensures kept { KeptWires self.old self.new }
    {
        let at = line.place_at(i);
        if line.is_straight(i) {
            self.push_end(at, self.n - 1, JunctionKind::LineSegment);
            return;
        }
        if i + 1 == line.path.len() {
            self.push_corner(at, VertexKind::WireEnd { junction });
        } else {
            self.push_corner(at, VertexKind::Normal);
        }
    }

    // Adds the nodes of a line behind its first.
    fn push_nodes(&mut self, line: Line, junction: Option<JunctionKind>)
        requires path_bound { 2 ≤ length line.path.now }
        requires room { (0 < self.old.n) × (self.old.n + kept_to (line_in line) (length line.path.now - 1) ≤ 512) × (self.old.m + (length line.path.now - 1) ≤ 4096) }
        ensures value { wires_of self.new ≡ push_nodes (line_in line.entry) junction (length line.entry.path.now - 1) (wires_of self.old) }
        ensures kept { KeptWires self.old self.new }
    {
        for i in 1..line.path.len() {
            self.push_node(line, junction, i);
        }
    }

    // Adds start, dummies and corners of a line. It adds an end more than it has nodes.
    pub fn push_vertices(&mut self, line: Line, is_root: bool, junction: Option<JunctionKind>)
        requires path_bound { 2 ≤ length line.path.now }
        requires vertex_room { self.old.n + line_vertices (line_in line) ≤ 512 }
        requires end_room { self.old.m + line_ends (line_in line) ≤ 4096 }
        ensures value { wires_of self.new ≡ push_vertices (line_in line.entry) is_root junction (wires_of self.old) }
        ensures kept { KeptWires self.old self.new }
    {
        let v = self.n;
        self.push_start(line, is_root);
        self.push_start_ends(line, v);
        self.push_nodes(line, junction);
    }

    // Adds the corner of a fallback if it has one.
    fn push_bend(&mut self, way: Fallback)
        requires { self.old.n + added_by way ≤ 513 }
        ensures value { wires_of self.new ≡ wires (bend_in way (wires_of self.old).page) (wires_of self.old).net }
        ensures n_value { self.new.n + 2 ≡ self.old.n + added_by way }
        ensures kept { KeptWires self.old self.new }
    {
        if way.is_bent() {
            self.push_vertex(way.corner(), VertexKind::Normal);
        }
    }

    // Adds the vertices of a fallback.
    fn push_fallback_wire(&mut self, way: Fallback, junction: Option<JunctionKind>)
        requires { self.old.n + added_by way ≤ 512 }
        ensures value { wires_of self.new ≡ wires (fallback_wire_in way junction (wires_of self.old).page) (wires_of self.old).net }
        ensures n_value { self.new.n ≡ self.old.n + added_by way }
        ensures kept { KeptWires self.old self.new }
    {
        self.push_vertex(way.start, VertexKind::WireStart { is_root: true });
        self.push_bend(way);
        self.push_vertex(way.end, VertexKind::WireEnd { junction });
    }

    // Adds a fallback. It adds 2 ends.
    pub fn push_fallback_vertices(&mut self, way: Fallback, junction: Option<JunctionKind>)
        requires vertex_room { self.old.n + added_by way ≤ 512 }
        requires end_room { self.old.m + 2 ≤ 4096 }
        ensures value { wires_of self.new ≡ fallback_in way junction (wires_of self.old) }
        ensures kept { KeptWires self.old self.new }
    {
        let v = self.n;
        self.push_fallback_wire(way, junction);
        self.push_end(way.start, v, JunctionKind::Corner);
        self.push_end(way.end, self.n - 1, JunctionKind::Corner);
    }
}

// Of the first m ends, the one that a junction at the place takes: the first there, the last of all if no other is there.
// It reads a list alone, as `nearest_end` does: a net's `Wires` need not be lent for it.
pub fn junction_end(ends: &[End], m: usize, at: Place) -> usize
    requires { (0 < m) × (m ≤ length ends.now) }
    ensures value { result ≡ junction_end (words ends.now) m at.x at.y }
    ensures below { result < m }
{
    let last = m - 1;
    for i in 0..last {
        if ends[i].at == at {
            return i;
        }
    }
    last
}

// Of the first m ends, the first at the least Manhattan distance from the place.
pub fn nearest_end(ends: &[End], m: usize, at: Place) -> usize
    requires { (0 < m) × (m ≤ length ends.now) }
    ensures value { result ≡ nearest_end (words ends.now) at.x at.y m }
    ensures below { result < m }
{
    let mut best = 0;
    for i in 0..m {
        if ends[i].distance(at) < ends[best].distance(at) {
            best = i;
        }
    }
    best
}

impl End {
    // What a wire's end that joins there carries: a corner by the letter C, by any other word a line segment.
    pub fn kind(self) -> JunctionKind
        ensures { Some result ≡ carried (eqb self.letter CORNER) }
    {
        if self.letter == CORNER {
            JunctionKind::Corner
        } else {
            JunctionKind::LineSegment
        }
    }

    // The Manhattan distance to the place.
    fn distance(self, at: Place) -> u64
        ensures { result ≡ manhattan self.at.x self.at.y at.x at.y }
    {
        fixed::manhattan(self.at.x, self.at.y, at.x, at.y)
    }
}

impl Fallback {
    // Its corner.
    fn corner(self) -> Place
        ensures x_value { result.x ≡ corner_x self.along self.start.x self.end.x }
        ensures y_value { result.y ≡ corner_y self.along self.start.y self.end.y }
    {
        if self.along {
            Place {
                x: self.end.x,
                y: self.start.y,
            }
        } else {
            Place {
                x: self.start.x,
                y: self.end.y,
            }
        }
    }

    // Whether its corner is a vertex of its own.
    fn is_bent(self) -> bool
        ensures { result ≡ bent_in self }
    {
        let corner = self.corner();
        (corner != self.start) & (corner != self.end)
    }

    // How many vertices it adds.
    pub fn vertices(self) -> usize
        ensures { result ≡ added_by self }
    {
        if self.is_bent() { 3 } else { 2 }
    }
}
