// The numbers that a column may hold, and the columns of each kind of row, as specs/Ranges.antt has them.
ghost use Rattle.std.specs.Prelude.{◌≡◌, ◌<◌, ◌&&◌, leb};
ghost use Rattle.survey.specs.Table.{storeys, ends_storey};
ghost use Rattle.survey.specs.Ranges.{◌to◌, exactly, zone, is_opening, solid, house_columns, storey_columns, ends_columns, wall_ranges, parts_columns, dates_columns};

use crate::columns::ZONE;
use crate::kind::{RowKind, WallType};
use crate::row::Row;

// From `low` to `high`, both included. The library's `RangeInclusive` is no plainer here: it is an iterator,
// so it is not `Copy` and holds more than the two numbers that a column has.
#[derive(Clone, Copy, Debug, PartialEq, Eq)]
pub struct Range {
    pub low: u32,
    pub high: u32,
}

// The first day that a dates row may hold, and the last.
const ANY_DAY: Range = Range {
    low: 19_000_101,
    high: 21_991_231,
};

impl Range {
    pub const UNUSED: Range = Range { low: 0, high: 0 };

    pub(crate) fn new(low: u32, high: u32) -> Self
        ensures { result ≡ low to high }
    {
        Range { low, high }
    }

    pub(crate) fn exactly(number: u32) -> Self
        ensures { result ≡ exactly number }
    {
        Range::new(number, number)
    }

    pub(crate) fn contains(&self, number: u32) -> bool
        ensures { result ≡ (leb self.now.low number && leb number self.now.high) }
    {
        (self.low..=self.high).contains(&number)
    }
}

// The zone of that number; 100 where no zone has it. It is a number and no enum, since it is what the column
// may hold.
#[tactic(auto, unfolding(crate::specs::Ranges::zone))]
fn zone(number: u32) -> u32
    ensures { result ≡ zone number }
{
    match number {
        70 | 80 | 90 => number,
        _ => 100,
    }
}

// Whether a wall's type is a window or a full-height opening.
pub(crate) fn is_opening(number: u32) -> bool
    ensures { result ≡ is_opening number }
{
    number == WallType::Window as u32 || number == WallType::FullHeightOpening as u32
}

// A storey's row.
pub(crate) fn storey_columns(number: u32) -> [Range; 8]
    ensures { result ≡ storey_columns number }
{
    [
        Range::exactly(RowKind::Storey as u32),
        Range::exactly(number),
        Range::new(1, 50_000),
        Range::new(500, 50_000),
        Range::new(1, 3),
        Range::new(0, 1),
        Range::UNUSED,
        Range::UNUSED,
    ]
}

// A wall's strength or joint, which an opening does not have.
fn solid(walltype: u32, range: Range) -> Range
    ensures { result ≡ solid walltype range }
{
    if is_opening(walltype) {
        Range::UNUSED
    } else {
        range
    }
}

// A wall's row, in a house of so many storeys, by the wall's own type.
pub(crate) fn wall_ranges(storeys: u32, walltype: u32) -> [Range; 8]
    ensures { result ≡ wall_ranges storeys walltype }
{
    [
        Range::exactly(RowKind::Wall as u32),
        Range::new(1, storeys),
        Range::new(1, 2),
        Range::new(1, 3),
        solid(walltype, Range::new(1, 300)),
        Range::new(1, 20_000),
        solid(walltype, Range::new(1, 4)),
        Range::new(1, 3),
    ]
}

// The parts row.
pub(crate) fn parts_columns() -> [Range; 8]
    ensures { result ≡ parts_columns }
{
    [
        Range::exactly(RowKind::Parts as u32),
        Range::new(0, 8_191),
        Range::new(0, 8_191),
        Range::new(0, 1),
        Range::UNUSED,
        Range::UNUSED,
        Range::UNUSED,
        Range::UNUSED,
    ]
}

// The dates row.
pub(crate) fn dates_columns() -> [Range; 8]
    ensures { result ≡ dates_columns }
{
    [
        Range::exactly(RowKind::Dates as u32),
        ANY_DAY,
        ANY_DAY,
        ANY_DAY,
        Range::UNUSED,
        Range::UNUSED,
        Range::UNUSED,
        Range::UNUSED,
    ]
}

// Rows whose ranges hang on other numbers of the table.
impl Row<'_> {
    pub(crate) fn house_columns(&self) -> [Range; 8]
        requires { self.now.at ≡ 0 }
        ensures { result ≡ house_columns self.now.table.numbers.now }
    {
        [
            Range::exactly(RowKind::House as u32),
            Range::new(1, 3),
            Range::new(1, 3),
            Range::exactly(zone(self.number(ZONE))),
            Range::new(1, 2),
            Range::new(1, 3),
            Range::UNUSED,
            Range::new(0, 3),
        ]
    }

    // The storey that is due in a row of ends. It is also the row of that storey. A type for rows of ends
    // would save this, the next and `check_ends` a clause each, and take as many lines to make.
    pub(crate) fn ends_storey(&self) -> usize
        requires { storeys self.now.table.numbers.now < self.now.at }
        ensures { result ≡ ends_storey self.now.table.numbers.now self.now.at }
    {
        (self.at - self.table.first_ends()) / 2 + 1
    }

    pub(crate) fn ends_columns(&self) -> [Range; 8]
        requires { storeys self.now.table.numbers.now < self.now.at }
        ensures { result ≡ ends_columns self.now.table.numbers.now self.now.at }
    {
        let storey = self.ends_storey() as u32;
        let direction = (self.at - self.table.first_ends()) as u32 % 2 + 1;
        let top = self.table.storeys;
        [
            Range::exactly(RowKind::Ends as u32),
            Range::exactly(storey),
            Range::exactly(direction),
            Range::new(1, 50_000),
            Range::new(1, 50_000),
            Range::new(storey, top),
            Range::new(storey, top),
            Range::UNUSED,
        ]
    }
}
