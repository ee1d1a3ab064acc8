// How a printed table is read.
ghost use Rattle.std.specs.Prelude.{◌≡◌};
ghost use Rattle.method.specs.Printed.{numbered};

// The element of a table with a number from 1, where there is one. It is answered by value, since an `Option` of
// a place has another layout in WebAssembly.
pub(crate) fn numbered<T: Copy>(table: &[T], number: u32) -> Option<T>
    ensures { result ≡ numbered table.now number }
{
    let at = number.checked_sub(1)? as usize;
    if table.len() <= at {
        return None;
    }
    Some(table[at])
}
