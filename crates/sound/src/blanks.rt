// Rows that are not in use, and coordinates. It carries document 01's "unused rows are zero" and "every coordinate is finite".

ghost use Rattle.std.specs.Prelude.{◌≡◌, ◌&&◌, ◌||◌, ◌+◌, ◌≤◌};
ghost use Rattle.rules.specs.Table.{there};
ghost use Rattle.rules.specs.Point.{zero_position_row, finite_row};
ghost use Rattle.sound.specs.Tests.{blank_row, position_test};

use rules::{PositionRow, VertexRow};
use tables::points;

// Unused rows are zero, in a table of any width.
pub fn blank<const N: usize>(row: &[u32; N]) -> bool
    requires { 1 ≤ N }
    ensures { result ≡ blank_row row.now }
{
    row[0] != 0 || row.iter().all(|&cell| cell == 0)
}

// Whether the vertex row i is in use: past the table none is.
fn used_row(vertices: &[VertexRow], i: usize) -> bool
    ensures { result ≡ there vertices.now (i + 1) }
{
    i < vertices.len() && vertices[i][0] != 0
}

// Whether a position is zero by its bits, so not -0.
fn zero_position(row: PositionRow) -> bool
    ensures { result ≡ zero_position_row row }
{
    points::zero_bits(row[0]) & (points::zero_bits(row[1]) & points::zero_bits(row[2]))
}

// Whether every coordinate of a position is finite.
pub fn finite_row(row: PositionRow) -> bool
    ensures { result ≡ finite_row row }
{
    points::finite(row[0]) & (points::finite(row[1]) & points::finite(row[2]))
}

// The position in an unused vertex's row is zero too, and every coordinate is finite.
pub fn place_row(used: bool, row: PositionRow) -> bool
    ensures { result ≡ ((used || zero_position_row row) && finite_row row) }
{
    (used | zero_position(row)) & finite_row(row)
}

// What document 01 asks of a position.
pub fn position_row(vertices: &[VertexRow], i: usize, row: PositionRow) -> bool
    ensures { result ≡ position_test vertices.now row (i + 1) }
{
    place_row(used_row(vertices, i), row)
}
