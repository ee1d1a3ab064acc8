// The tests of each kind of row.
#![tactic(auto, using(crate::proofs::RowFaults::row_tests), unfolding(crate::specs::Judgement::house_fault, crate::specs::Judgement::storey_fault, crate::specs::Judgement::ends_fault, crate::specs::Judgement::storey_before, crate::specs::Judgement::wall_fault, crate::specs::Judgement::within, crate::specs::Judgement::parts_fault, crate::specs::Judgement::dates_fault))]

ghost use Rattle.std.specs.Prelude.{◌≡◌, ◌<◌, ◌≤◌, ◌+◌, ◌*◌};
ghost use Rattle.survey.specs.Table.{storeys, first_wall};
ghost use Rattle.survey.specs.Ranges.{wall_columns};
ghost use Rattle.survey.specs.Judgement.{fault_told, columns_fault, house_fault, storey_fault, ends_fault, storey_before, wall_fault, parts_fault, days_fault, order_fault, dates_fault};

use crate::columns::{
    COMPLETION, END_AREA, FLOOR_AREA, KIND, MARKED, PRESENT, START_OF_WORK, STOREY, SURVEY_DAY,
    WALL_TYPE,
};
use crate::kind::WallType;
use crate::ranges::{dates_columns, is_opening, parts_columns, storey_columns, wall_ranges};
use crate::row::{Row, RowFault};
use answer::{MOST_WALLS, Reason};
use calendar::is_day;

// Each test answers the fault of its row, where it has one.
impl Row<'_> {
    // The house row.
    pub(crate) fn check_house(&self) -> Result<(), RowFault>
        requires { self.now.at ≡ 0 }
        ensures { fault_told result ≡ house_fault self.now.table.numbers.now }
    {
        self.check_columns(&self.house_columns(), 1)
    }

    // A storey's row. Counted from 0, it is the row of the storey's number.
    pub(crate) fn check_storey(&self) -> Result<(), RowFault>
        ensures { fault_told result ≡ storey_fault self.now.table.numbers.now self.now.at }
    {
        self.check_columns(&storey_columns(self.at as u32), 2)
    }

    // A row of ends.
    pub(crate) fn check_ends(&self) -> Result<(), RowFault>
        requires { (storeys self.now.table.numbers.now < self.now.at) × (self.now.at < first_wall self.now.table.numbers.now) }
        ensures { fault_told result ≡ ends_fault self.now.table.numbers.now self.now.at }
    {
        self.check_columns(&self.ends_columns(), 3)?;
        let storey = Row {
            table: self.table,
            at: self.ends_storey(),
        };
        let ends_area = u64::from(self.number(END_AREA)) + u64::from(self.number(END_AREA + 1));
        if u64::from(storey.number(FLOOR_AREA)) < ends_area {
            return Err(RowFault::new(Reason::EndsExceedStorey, END_AREA));
        }
        Ok(())
    }

    // The storey of the wall before; 0 before the first wall, which is below any storey: with an `Option`,
    // `check_wall` would have a case more.
    fn storey_before(&self) -> u32
        requires { first_wall self.now.table.numbers.now ≤ self.now.at }
        ensures { result ≡ storey_before self.now.table.numbers.now self.now.at }
    {
        if self.at == self.table.first_wall() {
            return 0;
        }
        let before = Row {
            table: self.table,
            at: self.at - 1,
        };
        before.number(STOREY)
    }

    // Refusals 3 and 4 for a wall whose storey does not fall. An opening has a window's ranges, and any other wall a
    // solid one's. Each is tested apart: with ranges that are chosen column by column, a wall takes a third more
    // instructions.
    fn check_wall_columns(&self) -> Result<(), RowFault>
        ensures { fault_told result ≡ columns_fault 1 (wall_columns self.now.table.numbers.now self.now.at) self.now.table.numbers.now self.now.at }
    {
        let storeys = self.table.storeys;
        if is_opening(self.number(WALL_TYPE)) {
            return self.check_columns(&wall_ranges(storeys, WallType::Window as u32), 1);
        }
        self.check_columns(&wall_ranges(storeys, WallType::Solid as u32), 1)
    }

    // A wall row.
    pub(crate) fn check_wall(&self) -> Result<(), RowFault>
        requires { first_wall self.now.table.numbers.now ≤ self.now.at }
        ensures { fault_told result ≡ wall_fault self.now.table.numbers.now self.now.at }
    {
        if self.number(STOREY) < self.storey_before() {
            return Err(RowFault::new(Reason::RowOutOfOrder, KIND));
        }
        self.check_wall_columns()?;
        if self.table.first_wall() + MOST_WALLS <= self.at {
            return Err(RowFault::new(Reason::TooManyWalls, KIND));
        }
        Ok(())
    }

    // The parts row.
    pub(crate) fn check_parts(&self) -> Result<(), RowFault>
        ensures { fault_told result ≡ parts_fault self.now.table.numbers.now self.now.at }
    {
        self.check_columns(&parts_columns(), 1)?;
        let present = self.number(PRESENT);
        let marked = self.number(MARKED);
        if marked & present != marked {
            return Err(RowFault::new(Reason::MarkOnAbsentPart, MARKED));
        }
        if present == 0 {
            return Err(RowFault::new(Reason::NoParts, PRESENT));
        }
        Ok(())
    }

    // Refusal 10 for a dates row, at the leftmost date that is no day.
    fn check_days(&self) -> Result<(), RowFault>
        ensures { fault_told result ≡ days_fault self.now.table.numbers.now self.now.at }
    {
        for column in START_OF_WORK..=SURVEY_DAY {
            if !is_day(self.number(column)) {
                return Err(RowFault::new(Reason::NoSuchDay, column));
            }
        }
        Ok(())
    }

    // Refusal 11 for a dates row, at the leftmost date that is before the one to its left.
    fn check_order(&self) -> Result<(), RowFault>
        ensures { fault_told result ≡ order_fault self.now.table.numbers.now self.now.at }
    {
        for column in COMPLETION..=SURVEY_DAY {
            if self.number(column) < self.number(column - 1) {
                return Err(RowFault::new(Reason::DatesOutOfOrder, column));
            }
        }
        Ok(())
    }

    // The dates row.
    pub(crate) fn check_dates(&self) -> Result<(), RowFault>
        ensures { fault_told result ≡ dates_fault self.now.table.numbers.now self.now.at }
    {
        self.check_columns(&dates_columns(), 1)?;
        self.check_days()?;
        self.check_order()
    }
}
