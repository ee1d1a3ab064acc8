// A table that is judged, and its rows: their numbers, their refusals, and whether their numbers lie in the
// ranges of their columns.
ghost use Rattle.std.specs.Prelude.{◌≡◌, ◌<◌, ◌≤◌, ◌+◌, ◌*◌, length};
ghost use Rattle.answer.specs.Length.{Whole};
ghost use Rattle.survey.specs.Table.{cell, first_ends, is_wall, first_wall};
ghost use Rattle.survey.specs.Ranges.{lows, highs};
ghost use Rattle.survey.specs.Judgement.{fault_told, outside, leftmost, place_below, columns_fault};
ghost use Rattle.survey.specs.Internal.{told_by_row};

use crate::columns::KIND;
use crate::kind::RowKind;
use crate::ranges::Range;
use answer::{ROW, Reason, Refusal};

// A table of whole rows, not too many. `storeys` are the house's, by its row, whether or not that has a fault.
// The numbers are one lent slice, as document 01 has them, and `rows` is their count as `rows_in` answers it.
#[derive(Clone, Copy)]
pub struct Table<'a> {
    pub numbers: &'a [u32],
    pub rows: usize,
    pub storeys: u32,
    ghost whole: { Whole 8 (length numbers.now) rows },
    ghost of_house: { storeys ≡ cell numbers.now 0 1 },
}

impl Table<'_> {
    pub(crate) fn first_ends(&self) -> usize
        ensures { result ≡ first_ends self.now.numbers.now }
    {
        self.storeys as usize + 1
    }

    pub(crate) fn first_wall(&self) -> usize
        ensures { result ≡ first_wall self.now.numbers.now }
    {
        3 * self.storeys as usize + 1
    }
}

// What is wrong with a row: why, and by which column, which counts from 1 here as in what is told.
#[derive(Clone, Copy, Debug, PartialEq, Eq)]
pub struct RowFault {
    pub reason: Reason,
    pub column: u32,
}

impl RowFault {
    // The column counts from 0. Columns are numbers below 8 throughout: a type for them would be made and
    // taken apart at each call.
    pub(crate) fn new(reason: Reason, column: usize) -> Self
        requires { column < 8 }
        ensures { result ≡ record { reason = reason; column = column + 1 } }
    {
        RowFault {
            reason,
            column: column as u32 + 1,
        }
    }
}

// A row of such a table, counted from 0.
#[derive(Clone, Copy)]
pub struct Row<'a> {
    pub table: Table<'a>,
    pub at: usize,
    ghost stands: { at < table.rows },
}

impl Row<'_> {
    pub(crate) fn number(&self, column: usize) -> u32
        requires { column < 8 }
        ensures { result ≡ cell self.now.table.numbers.now self.now.at column }
    {
        self.table.numbers[ROW * self.at + column]
    }

    pub(crate) fn is_wall(&self) -> bool
        ensures { result ≡ is_wall self.now.table.numbers.now self.now.at }
    {
        self.number(KIND) == RowKind::Wall as u32
    }

    // What a test of this row answers, as a refusal by this row where it found a fault. By `map_err` its proof
    // did not close.
    pub(crate) fn refused(&self, tested: Result<(), RowFault>) -> Result<(), Refusal>
        ensures { result ≡ told_by_row self.now.at tested }
    {
        let Err(fault) = tested else {
            return Ok(());
        };
        Err(Refusal {
            reason: fault.reason,
            row: self.at as u32 + 1,
            column: fault.column,
        })
    }

    // Whether the number in a column lies outside its range. The tests go by column and not by pairs of a number
    // and its range, since the column is what is told.
    #[tactic(auto, unfolding(crate::specs::Judgement::outside))]
    fn is_outside(&self, ranges: &[Range; 8], column: usize) -> bool
        requires { column < 8 }
        ensures { result ≡ outside (lows ranges.now) (highs ranges.now) self.now.table.numbers.now self.now.at column }
    {
        !ranges[column].contains(self.number(column))
    }

    // The leftmost column whose number lies outside its range.
    fn leftmost(&self, ranges: &[Range; 8]) -> Option<usize>
        ensures { result ≡ place_below 8 (leftmost (lows ranges.now) (highs ranges.now) self.now.table.numbers.now self.now.at) }
    {
        (0..ROW).position(|column| self.is_outside(ranges, column))
    }

    // Refusal 3 or 4, where one is due. The first `due` columns say which row this is.
    #[tactic(auto, using(crate::proofs::RowFaults::column_tests), unfolding(crate::specs::Judgement::wrong_column))]
    pub(crate) fn check_columns(&self, ranges: &[Range; 8], due: usize) -> Result<(), RowFault>
        requires { due ≤ 8 }
        ensures { fault_told result ≡ columns_fault due ranges.now self.now.table.numbers.now self.now.at }
    {
        match self.leftmost(ranges) {
            None => Ok(()),
            Some(column) if column < due => Err(RowFault::new(Reason::RowOutOfOrder, KIND)),
            Some(column) => Err(RowFault::new(Reason::OutOfRange, column)),
        }
    }
}
