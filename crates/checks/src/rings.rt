// A face's ring and its vertices, as lists. Document 01's rule 3, "A ring starts at the face's arc and follows next".

ghost use Rattle.std.specs.Prelude.{◌≡◌, List, ℕ, length, Float};
ghost use Rattle.rules.specs.Table.{Table};
ghost use Rattle.rules.specs.Mesh.{mesh, links_of};
ghost use Rattle.rules.specs.Link as Link;

use rules::{ArcRow, FaceRow, Links};
use tables::rows;

// The arcs of the face f.
pub fn ring_of(arcs: &[ArcRow], faces: &[FaceRow], f: u32) -> Links
    ensures { (vs : Table) (ps : List (List Float)) (es : Table) (ks : List ℕ) →
        result ≡ links_of (Link.ring (mesh vs ps arcs.now es faces.now ks) f) }
{
    walks::rings::ring(arcs, rows::cell(faces, f, 1)).links
}

// How many arcs it has.
pub fn arity_of(arcs: &[ArcRow], faces: &[FaceRow], f: u32) -> usize
    ensures { (vs : Table) (ps : List (List Float)) (es : Table) (ks : List ℕ) →
        result ≡ length (Link.ring (mesh vs ps arcs.now es faces.now ks) f) }
{
    lists::size(ring_of(arcs, faces, f))
}

// Its vertices: the arcs' destinations in that order.
pub fn vertices_of(arcs: &[ArcRow], faces: &[FaceRow], f: u32) -> Links
    ensures { (vs : Table) (ps : List (List Float)) (es : Table) (ks : List ℕ) →
        result ≡ links_of (Link.ring_vertices (mesh vs ps arcs.now es faces.now ks) f) }
{
    walks::rings::ring_vertices(arcs, ring_of(arcs, faces, f))
}
