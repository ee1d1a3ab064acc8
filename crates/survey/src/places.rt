// Where a table's rows stand.
ghost use Rattle.std.specs.Prelude.{◌≡◌, ◌≤◌, ◌^◌};
ghost use Rattle.survey.specs.Table.{parts_row, dates_row};

use crate::columns::STOREYS;
use crate::table::{cell, is_wall};

// The row after the walls, from 0, where the parts are due. Any table will do: where the table ends before
// it, it lies beyond the table. It is far from the largest number that there is: it lies at most one row
// beyond the table, or where the first wall is due. `Table` knows that row of whole rows alone.
pub fn parts_row(table: &[u32]) -> usize
    ensures row { result ≡ parts_row table.now }
    ensures most { result ≤ 2 ^ 62 }
{
    let first = 3 * (cell(table, 0, STOREYS) as usize) + 1;
    let most = table.len();
    let walls = (first..first + most)
        .position(|row| !is_wall(table, row))
        .unwrap_or(most);
    first + walls
}

// The row after that, from 0, where the dates are due.
pub fn dates_row(table: &[u32]) -> usize
    ensures { result ≡ dates_row table.now }
{
    parts_row(table) + 1
}
