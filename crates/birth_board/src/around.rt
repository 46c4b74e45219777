// The cells around a cell.
ghost use Rattle.std.specs.Prelude.{◌≡◌, ◌+◌, ◌*◌, ◌/◌, ◌<◌, All};
ghost use Rattle.birth_board.specs.Torus.{torus_numbers, cells_of, neighbours_of};

use crate::Torus;

/// The eight cells around a cell, row by row from the north-west, with repeats.
#[tactic(auto, unfolding(crate::specs::Torus::neighbours_of))]
pub fn neighbours(torus: &Torus, cell: u32) -> [u32; 8]
    requires { cell < cells_of (torus_numbers torus.now) }
    ensures value { result ≡ neighbours_of (torus_numbers torus.now) cell }
    ensures in_torus { All (λ neighbour. neighbour < cells_of (torus_numbers torus.now)) result }
{
    let column = cell % torus.width;
    let row = row_of(torus, cell);
    let west = (column + (torus.width - 1)) % torus.width;
    let east = (column + 1) % torus.width;
    let north = (row + (torus.height - 1)) % torus.height;
    let south = (row + 1) % torus.height;
    [
        cell_at(torus, west, north),
        cell_at(torus, column, north),
        cell_at(torus, east, north),
        cell_at(torus, west, row),
        cell_at(torus, east, row),
        cell_at(torus, west, south),
        cell_at(torus, column, south),
        cell_at(torus, east, south),
    ]
}

fn row_of(torus: &Torus, cell: u32) -> u32
    requires { cell < cells_of (torus_numbers torus.now) }
    ensures value { result ≡ cell / torus.now.width }
    ensures in_torus { result < torus.now.height }
{
    cell / torus.width
}

fn cell_at(torus: &Torus, column: u32, row: u32) -> u32
    requires column { column < torus.now.width }
    requires row { row < torus.now.height }
    ensures value { result ≡ row * torus.now.width + column }
    ensures in_torus { result < cells_of (torus_numbers torus.now) }
{
    row * torus.width + column
}
