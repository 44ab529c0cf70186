// The page whose wires are moved, without the places of its vertices.
#![tactic(auto)]

ghost use Rattle.std.specs.Prelude.{◌≤◌, length};
ghost use Rattle.std.proofs.Props.{props};
ghost use Rattle.vertex.specs.Pages.{Joined};

// The kinds of so many vertices, and their junctions. The lists of x and y go beside it: a struct of lent lists that are written would have each function promise that it still holds the same.
#[derive(Clone, Copy, Debug, PartialEq, Eq)]
pub struct Page<'a> {
    pub vertices: usize,
    pub kinds: &'a [u8],
    pub junctions: &'a [u32],
    ghost known: { vertices ≤ length kinds.now },
    ghost joined: { Joined vertices junctions.now } by { Prim.hlevel props },
}
