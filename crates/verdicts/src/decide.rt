// What is decided of a file before any table is filled. Request L3: "Refusals in reading, in this order: 1 .., 10 if the length isn't 44 plus what the counts ask,
// 11 if a body doesn't start where the one before ends or its keys don't rise, 7 for more records than the lent tables hold, 12 for an unsound mesh."

ghost use mathlib.Core.Path.{◌≡◌};
ghost use Rattle.std.specs.Prelude.{IfOk};
ghost use Rattle.rules.specs.Lent.{mesh_in};
ghost use Rattle.file.specs.File.{contents_in, tables_hold};
ghost use Rattle.verdicts.specs.Verdicts.{first_number};
ghost use Rattle.verdicts.specs.Refusals.{number_of};

use crate::refusals::ReadRefusal;
use bodies::kinds::Kind;
use bodies::layout;
use bodies::records::{LaidFile, WholeFile};
use fills::holding::StorableFile;
use rules::MeshRef;

// 7: whether the lent tables hold the records.
fn tables_hold(mesh: MeshRef, file: LaidFile) -> bool
    ensures { result ≡ tables_hold (mesh_in mesh.entry) (contents_in file.entry.text.now) }
{
    file.count(Kind::Vertices) <= mesh.vertices.len()
        && file.count(Kind::Arcs) <= mesh.arcs.len()
        && file.count(Kind::Edges) <= mesh.edges.len()
        && file.count(Kind::Faces) <= mesh.faces.len()
}

// The file, or its first refusal: 10, 11, 7, and 12 where no row can hold a record.
pub fn decide<'a>(mesh: MeshRef, text: &'a [u8]) -> Result<StorableFile<'a>, ReadRefusal>
    ensures first { number_of result ≡ first_number (mesh_in mesh.entry) text.now }
    ensures same { IfOk result (λ f. f.whole.file.text.now ≡ text.now) }
{
    if !layout::length_fits(text) {
        return Err(ReadRefusal::Length);
    }
    let Some(whole) = WholeFile::of(text) else {
        return Err(ReadRefusal::Places);
    };
    if !tables_hold(mesh, whole.file) {
        return Err(ReadRefusal::NoRoom);
    }
    StorableFile::of(whole).ok_or(ReadRefusal::Unsound)
}
