// The four kinds of records that a file has. Request L3: "for vertices, arcs, edges, faces, in that order".

ghost use mathlib.Core.Path.{◌≡◌};
ghost use Rattle.bodies.specs.Kinds.{number};

#[derive(Clone, Copy)]
pub enum Kind {
    Vertices,
    Arcs,
    Edges,
    Faces,
}

pub const KINDS: [Kind; 4] = [Kind::Vertices, Kind::Arcs, Kind::Edges, Kind::Faces];

impl Kind {
    // Its place in that order.
    pub fn number(self) -> usize
        ensures { result ≡ number self }
    {
        self as usize
    }
}
