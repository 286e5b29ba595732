// A face insert whose checks have passed. Document 01's rule 5.

ghost use Rattle.std.specs.Prelude.{◌≡◌};
ghost use Rattle.rules.specs.Mesh.{list_of};
ghost use Rattle.rules.specs.Lent.{mesh_of, SameMesh};
ghost use Rattle.edges.specs.Free.{UsedBefore};
ghost use Rattle.pairs.specs.Pairs.{arcs_of};
ghost use Rattle.makers.specs.Search.{arcs_on};
ghost use Rattle.makers.specs.Makers.{searching, put_face_by};
ghost use Rattle.insert.specs.Sought.{sought_of, put_sought};

use crate::search::Sought;
use crate::{perimeter, search};
use edges::face;
use edges::free::Lowest;
use pairs::near::Nearby;
use rules::{Links, MeshMut};

// The edges, the face with the first perimeter arc, the interior, then the exterior by what was found in the lists. found are the perimeter's arcs
// as they are; unused rows are looked for from these on.
pub fn put_face_sought(
    mesh: &mut MeshMut,
    sought: Sought,
    per: Links,
    found: Links,
    from: Lowest,
    mark: u32,
)
    requires found_value { list_of found ≡ arcs_of mesh.old.arcs.now (list_of per) }
    requires used_before { UsedBefore mesh.old.arcs.now from.arc
        × (UsedBefore mesh.old.edges.now from.edge × UsedBefore mesh.old.faces.now from.face) }
    ensures face { mesh_of mesh.new ≡ put_sought (sought_of sought) (mesh_of mesh.old) (list_of per) mark }
    ensures same { SameMesh mesh.old mesh.new }
{
    let given = perimeter::edges_in(mesh, per, found, from);
    let ring = perimeter::arcs_told(mesh.view().arcs, per, given);
    let face = face::new_face(mesh, from.face, lists::item(ring, 0), mark);
    perimeter::interior(mesh.arcs, ring, face);
    perimeter::exterior(mesh, sought.outs, sought.backs, ring);
}

// The insert of a perimeter that the checks let pass: its lists are searched first, where its own arcs will be held. found are these arcs; unused
// rows are looked for from these on.
pub fn insert_by(mesh: &mut MeshMut, per: Links, found: Links, from: Lowest, mark: u32)
    requires found_value { list_of found ≡ arcs_of mesh.old.arcs.now (list_of per) }
    requires used_before { UsedBefore mesh.old.arcs.now from.arc
        × (UsedBefore mesh.old.edges.now from.edge × UsedBefore mesh.old.faces.now from.face) }
    ensures face { mesh_of mesh.new
        ≡ put_face_by searching (mesh_of mesh.old) (arcs_on (mesh_of mesh.old) (list_of per)) (mesh_of mesh.old) (list_of per) mark }
    ensures same { SameMesh mesh.old mesh.new }
{
    let sought = search::search_lists(mesh.view(), per, found, search::none());
    put_face_sought(mesh, sought, per, found, from, mark);
}

// The insert of a perimeter whose arcs are found in one pass, which finds the lowest unused row too.
pub fn insert_work(mesh: &mut MeshMut, per: Links, mark: u32)
    ensures face { mesh_of mesh.new
        ≡ put_face_by searching (mesh_of mesh.old) (arcs_on (mesh_of mesh.old) (list_of per)) (mesh_of mesh.old) (list_of per) mark }
    ensures same { SameMesh mesh.old mesh.new }
{
    lists::known_few(per);
    let arcs = mesh.view().arcs;
    let mut near = Nearby::new();
    near.mark(per);
    near.list(arcs, 2 * lists::size(per) + 1);
    let found = near.perimeter_arcs(arcs, per);
    let from = Lowest {
        arc: near.first,
        ..Lowest::default()
    };
    insert_by(mesh, per, found, from, mark);
}
