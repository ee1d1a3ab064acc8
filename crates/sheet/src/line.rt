// One line: eight numbers printed.
ghost use Rattle.std.specs.Prelude.{◌≡◌, length};
ghost use Rattle.sheet.specs.Line.{line};

use crate::field::{FIELD_WIDTH, print};

// How many numbers a row has, and how many fields a line.
pub use answer::ROW;
// Where a line's last byte stands: after its fields.
pub(crate) const LAST_BYTE: usize = FIELD_WIDTH * ROW;
// How many bytes a line has: eight fields of 8 characters, then byte 10.
pub const LINE: usize = LAST_BYTE + 1;

// Prints eight numbers over the 65 bytes of a line. They are written in place, since a line that is copied
// from an array of its own takes a twelfth more time, and by their place (as in writer.rt).
pub(crate) fn print_row(row: &[u32; ROW], bytes: &mut [u8])
    requires { length bytes.old ≡ 65 }
    ensures { bytes.new ≡ line row.now }
{
    for (column, &number) in row.iter().enumerate() {
        let from = FIELD_WIDTH * column;
        print(number, &mut bytes[from..from + FIELD_WIDTH]);
    }
    bytes[LAST_BYTE] = b'\n';
}

// The line of eight numbers, by value. Of a number over 99,999,999 the last eight digits are
// printed.
pub fn print_line(row: [u32; ROW]) -> [u8; LINE]
    ensures { result ≡ line row }
{
    let mut bytes = [0u8; LINE];
    print_row(&row, &mut bytes);
    bytes
}
