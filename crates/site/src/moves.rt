// Rows moved in the lent table. Each loop writes every number once, by what stood before it or after it: the
// library's methods that move parts compare places as numbers, and the archive for WebAssembly, where addresses
// are narrower, has none of them.
ghost use Rattle.std.specs.Prelude.{◌≡◌, ◌≤◌, ◌<◌, ◌+◌, ◌*◌, ◌++◌, take, drop, length};
ghost use Rattle.answer.specs.Lists.{over};
ghost use Rattle.site.specs.Rows.{in_use, with_row, without_row};
ghost use Rattle.site.specs.Changes.{empty_row};

use answer::ROW;

// Puts a row in front of a part, whose last row goes.
fn put_in_front(part: &mut [u32], row: &[u32; ROW])
    ensures { part.new ≡ take (length part.old) (row.now ++ part.old) }
{
    for at in (0..part.len()).rev() {
        part[at] = if at < ROW { row[at] } else { part[at - ROW] };
    }
}

// Takes a part's first row out, and puts zeros behind its last.
fn take_from_front(part: &mut [u32])
    ensures { part.new ≡ take (length part.old) (drop 8 part.old ++ empty_row) }
{
    let length = part.len();
    for at in 0..length {
        let next = at + ROW;
        part[at] = if next < length { part[next] } else { 0 };
    }
}

// Puts a row in among the rows in use, which move down one from there on.
pub(crate) fn insert(table: &mut [u32], at: usize, rows: usize, row: &[u32; ROW])
    requires { (at ≤ rows) × (8 * rows + 8 ≤ length table.old) }
    ensures { table.new ≡ over table.old (with_row (in_use table.old rows) at row.now) }
{
    put_in_front(&mut table[ROW * at..ROW * rows + ROW], row);
}

// Takes a row out from among the rows in use, and sets the last to 0.
pub(crate) fn remove(table: &mut [u32], at: usize, rows: usize)
    requires { (at < rows) × (8 * rows ≤ length table.old) }
    ensures { table.new ≡ over table.old (without_row (in_use table.old rows) at ++ empty_row) }
{
    take_from_front(&mut table[ROW * at..ROW * rows]);
}
