// The records of a kind in lent bytes, back to back in key order.

ghost use mathlib.Core.Path.{◌≡◌};
ghost use Prim.Native.Nat.{◌+◌, ◌≤◌};
ghost use lib.ListN.{length};
ghost use Rattle.rules.specs.Lent.{mesh_in};
ghost use Rattle.file.specs.File.{body_length};
ghost use Rattle.orders.specs.Order as O;
ghost use Rattle.writes.specs.Writing.{put_text, links_text, kind_text, widths_of};

use crate::records;
use orders::{Kind, sorted};
use rules::MeshRef;

// The most links that are held: as many as the largest table has rows.
const LINKS: usize = 16384;

// The records that links name; and the place behind them.
fn put_links(kind: Kind, mesh: MeshRef, links: &[u16], out: &mut [u8], at: usize) -> usize
    requires { at + body_length (widths_of kind) (length links.now) ≤ length out.old }
    ensures out_after { out.new ≡ put_text out.old at (links_text (mesh_in mesh.entry) kind links.now) }
    ensures next { result ≡ at + body_length (widths_of kind) (length links.now) }
{
    let size = records::size_of(kind);
    let mut place = at;
    for x in links {
        records::put_record(kind, mesh, u32::from(*x), out, place);
        place += size;
    }
    place
}

// All records of a kind, in key order; and the place behind them.
pub fn put_body(kind: Kind, mesh: MeshRef, out: &mut [u8], at: usize) -> usize
    requires kind_len_bound { length (O.table_of (mesh_in mesh) kind) ≤ 16384 }
    requires kind_in_bounds { at + body_length (widths_of kind) (length (O.links_of (mesh_in mesh) kind)) ≤ length out.old }
    ensures out_after { out.new ≡ put_text out.old at (kind_text (mesh_in mesh.entry) kind) }
    ensures next { result ≡ at + body_length (widths_of kind) (length (O.links_of (mesh_in mesh.entry) kind)) }
{
    let mut links = [0; LINKS];
    let mut spare = [0; LINKS];
    let n = sorted::in_order(kind, mesh, &mut links, &mut spare);
    put_links(kind, mesh, &links[..n], out, at)
}
