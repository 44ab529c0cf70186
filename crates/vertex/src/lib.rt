// The vertices of a page's wires: what a vertex is, the letter of its kind, and how the lent lists hold it.
#![tactic(auto)]

ghost use Rattle.std.specs.Prelude.{◌≡◌, ◌<◌, length, set};
ghost use Rattle.fixed.specs.Up.{ups};
ghost use Rattle.vertex.specs.Kinds.{kind_of, letter_of, start};
ghost use Rattle.vertex.specs.Vertices.{vertex_at};

// The kind of a junction.
#[derive(Clone, Copy, Debug, PartialEq, Eq)]
pub enum JunctionKind {
    Corner,
    LineSegment,
}

#[derive(Clone, Copy, Debug, PartialEq, Eq)]
pub enum VertexKind {
    WireStart { is_root: bool },
    Dummy,
    Normal,
    WireEnd { junction: Option<JunctionKind> },
}

// A vertex; its place is counted from -2^31.
#[derive(Clone, Copy, Debug, PartialEq, Eq)]
pub struct Vertex {
    pub x: u32,
    pub y: u32,
    pub kind: VertexKind,
}

impl VertexKind {
    // Whether a vertex of that kind starts a wire.
    pub fn is_start(self) -> bool
        ensures { result ≡ start self }
    {
        matches!(self, VertexKind::WireStart { .. })
    }
}

// The kind that a letter stands for; any other byte is read as a normal corner.
impl From<u8> for VertexKind {
    ghost from_gives = { λ letter kind. kind ≡ kind_of letter };

    fn from(letter: u8) -> VertexKind {
        match letter {
            b'R' => VertexKind::WireStart { is_root: true },
            b'B' => VertexKind::WireStart { is_root: false },
            b'D' => VertexKind::Dummy,
            b'E' => VertexKind::WireEnd { junction: None },
            b'C' => VertexKind::WireEnd {
                junction: Some(JunctionKind::Corner),
            },
            b'L' => VertexKind::WireEnd {
                junction: Some(JunctionKind::LineSegment),
            },
            _ => VertexKind::Normal,
        }
    }
}

// The letter of a kind.
impl From<VertexKind> for u8 {
    ghost from_gives = { λ kind letter. letter ≡ letter_of kind };

    fn from(kind: VertexKind) -> u8 {
        match kind {
            VertexKind::WireStart { is_root: true } => b'R',
            VertexKind::WireStart { is_root: false } => b'B',
            VertexKind::Dummy => b'D',
            VertexKind::Normal => b'N',
            VertexKind::WireEnd { junction: None } => b'E',
            VertexKind::WireEnd {
                junction: Some(JunctionKind::Corner),
            } => b'C',
            VertexKind::WireEnd {
                junction: Some(JunctionKind::LineSegment),
            } => b'L',
        }
    }
}

// The vertex i of the lent lists.
pub fn vertex_at(x: &[i32], y: &[i32], kinds: &[u8], i: usize) -> Vertex
    requires { (i < length x.now) × (i < length y.now) × (i < length kinds.now) }
    ensures { result ≡ vertex_at (ups x.now) (ups y.now) kinds.now i }
{
    Vertex {
        x: fixed::at(x, i),
        y: fixed::at(y, i),
        kind: VertexKind::from(kinds[i]),
    }
}

// Stores a vertex at i of the lent lists.
pub fn put_vertex(x: &mut [i32], y: &mut [i32], kinds: &mut [u8], i: usize, vertex: Vertex)
    requires { (i < length x.old) × (i < length y.old) × (i < length kinds.old) }
    ensures { (ups x.new ≡ set (ups x.old) i vertex.x) × (ups y.new ≡ set (ups y.old) i vertex.y) × (kinds.new ≡ set kinds.old i (letter_of vertex.kind)) }
{
    fixed::put(x, i, vertex.x);
    fixed::put(y, i, vertex.y);
    kinds[i] = u8::from(vertex.kind);
}
