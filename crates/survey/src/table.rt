// A table's numbers, by row and column.
ghost use Rattle.std.specs.Prelude.{◌≡◌, unwrap_or};
ghost use Rattle.survey.specs.Table.{cell, is_wall};

use crate::columns::KIND;
use crate::kind::RowKind;
use answer::ROW;

// The number in any row and column, both from 0; none beyond the table. (`get` hands out a place, and an `Option`
// of one has another layout in WebAssembly.)
fn any_cell(table: &[u32], row: usize, column: usize) -> Option<u32>
    ensures { unwrap_or result 0 ≡ cell table.now row column }
{
    let at = row.checked_mul(ROW)?.checked_add(column)?;
    if table.len() <= at {
        return None;
    }
    Some(table[at])
}

// The number in a row and a column, both from 0; 0 beyond the table. Any table, row and column will do,
// so that no caller has to show that a place lies in the table. The common case comes first, a column of
// a whole row: where a loop goes over the rows and the column is a constant, the compiler sees that both
// tests hold and leaves them out.
pub fn cell(table: &[u32], row: usize, column: usize) -> u32
    ensures { result ≡ cell table.now row column }
{
    if row < table.len() / ROW && column < ROW {
        return table[ROW * row + column];
    }
    any_cell(table, row, column).unwrap_or(0)
}

// Whether a row is a wall row.
pub(crate) fn is_wall(table: &[u32], row: usize) -> bool
    ensures { result ≡ is_wall table.now row }
{
    cell(table, row, KIND) == RowKind::Wall as u32
}
