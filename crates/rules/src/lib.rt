// The types that callers and definitions share: a position, a vertex, a move, the edits, and the answers.
// What they mean stands in specs/, document 01 written as definitions.

#![tactic(auto)]

ghost use Rattle.std.specs.Prelude.{◌≡◌};
ghost use Rattle.rules.specs.Lent.{mesh_in, mesh_of, room_in, room_of};

// The rows of the five tables, and the places of a ring or a list of keys.
// Kept: a link in a row is a number, 0 for none, as C lends the rows and document 01 has it; so is what is read out of a row or goes into one.
pub type VertexRow = [u32; 2];

pub type PositionRow = [f64; 3];

pub type ArcRow = [u32; 6];

pub type EdgeRow = [u32; 3];

pub type FaceRow = [u32; 3];

pub const RING: usize = 64;

// A list of at most 64 links or keys: the places from len on are 0.
// Kept: document 01 names a list of 64 places with its length, and there is no heap.
#[derive(Clone, Copy)]
pub struct Links {
    pub at: [u32; RING],
    pub len: usize,
}

// A position is one record of three coordinates.
#[derive(Clone, Copy)]
pub struct Position {
    pub x: f64,
    pub y: f64,
    pub z: f64,
}

// A vertex as it is read out of its row: its key, its position, and the link of its leading arc, 0 for none.
#[derive(Clone, Copy)]
pub struct Vertex {
    pub key: u32,
    pub position: Position,
    pub leading: u32,
}

// A move is a choice of two: a shift by three offsets, or a scale about a centre by a factor.
#[derive(Clone, Copy)]
pub enum Move {
    Shift(f64, f64, f64),
    Scale {
        ox: f64,
        oy: f64,
        oz: f64,
        factor: f64,
    },
}

// Why a call is refused: document 01's answers 1 to 8 and document 02's 13, by their names and numbers.
#[derive(Clone, Copy)]
pub enum Refusal {
    Tables = 1,
    Argument = 2,
    TopologyMalformed = 3,
    TopologyNotFound = 4,
    TopologyConflict = 5,
    ArityNonUniform = 6,
    NoRoom = 7,
    WouldBreak = 8,
    SamePlace = 13,
}

// An answer as numbers: document 01's number, and each value, 0 where the answer has none.
#[repr(C)]
// Kept: the C interface: an answer as numbers, 0 where it has none.
#[derive(Clone, Copy)]
pub struct Reply {
    pub number: u32,
    pub key: u32,
    pub source: u32,
    pub destination: u32,
    pub mark: u32,
    pub arity: u32,
}

// What an accepted call tells: a key, an arc by its two vertex keys, a mark, an arity, or nothing.
#[derive(Clone, Copy)]
pub enum Told {
    Key(u32),
    Arc(u32, u32),
    Mark(u32),
    Arity(u32),
    Done,
}

// How a walk ended: back at its first arc, at a missing link, or cut off at its bound.
#[derive(Clone, Copy)]
pub enum Ended {
    Closed,
    Open,
    Cut,
}

// A walk of at most 64 arcs, and how it ended.
#[derive(Clone, Copy)]
pub struct Walk {
    pub links: Links,
    pub ended: Ended,
}

// The nine edits with what the caller gives, by keys. The keys of a face insert stand beside it, as a list.
#[derive(Clone, Copy)]
pub enum Edit {
    VertexInsert(Position),
    FaceInsert(u32),
    FaceRemove(u32),
    FaceSplit(u32, u32, u32),
    FacePoke(u32, Position),
    FaceBridge(u32, u32),
    FaceExtrude(u32, Move),
    ArcBridge(u32, u32, u32, u32),
    ArcExtrude(u32, u32, Move),
}

// A call of an edit, with whatever a call may choose.
#[derive(Clone, Copy)]
pub struct Call {
    pub edit: Edit,
}

// A mesh, lent for reading: its five tables and its counters.
#[derive(Clone, Copy)]
pub struct MeshRef<'a> {
    pub vertices: &'a [VertexRow],
    pub positions: &'a [PositionRow],
    pub arcs: &'a [ArcRow],
    pub edges: &'a [EdgeRow],
    pub faces: &'a [FaceRow],
    pub counters: &'a [u32; 3],
}

// A mesh, lent for writing.
#[derive(Drop)]
pub struct MeshMut<'a> {
    pub vertices: &'a mut [VertexRow],
    pub positions: &'a mut [PositionRow],
    pub arcs: &'a mut [ArcRow],
    pub edges: &'a mut [EdgeRow],
    pub faces: &'a mut [FaceRow],
    pub counters: &'a mut [u32; 3],
}

impl MeshMut<'_> {
    // The same mesh, lent for reading.
    pub fn view(&self) -> MeshRef<'_>
        ensures { mesh_in result ≡ mesh_of self.now }
    {
        MeshRef {
            vertices: self.vertices,
            positions: self.positions,
            arcs: self.arcs,
            edges: self.edges,
            faces: self.faces,
            counters: self.counters,
        }
    }
}

// Working room, lent for reading.
#[derive(Clone, Copy)]
pub struct RoomRef<'a> {
    pub vertices: &'a [VertexRow],
    pub positions: &'a [PositionRow],
    pub arcs: &'a [ArcRow],
    pub edges: &'a [EdgeRow],
    pub faces: &'a [FaceRow],
}

// Working room, lent for writing: a further set of tables.
#[derive(Drop)]
pub struct RoomMut<'a> {
    pub vertices: &'a mut [VertexRow],
    pub positions: &'a mut [PositionRow],
    pub arcs: &'a mut [ArcRow],
    pub edges: &'a mut [EdgeRow],
    pub faces: &'a mut [FaceRow],
}

impl RoomMut<'_> {
    // The same room, lent for reading.
    pub fn view(&self) -> RoomRef<'_>
        ensures { room_in result ≡ room_of self.now }
    {
        RoomRef {
            vertices: self.vertices,
            positions: self.positions,
            arcs: self.arcs,
            edges: self.edges,
            faces: self.faces,
        }
    }
}
