// A table that is accepted, and what its rows say, each by value: what `method` takes, and the dates. The
// struct of a row is filled here and nowhere else.
ghost use Rattle.std.specs.Prelude.{◌≡◌, Err, IfOk, IfErr, eqb};
ghost use Rattle.answer.specs.Told.{told};
ghost use Rattle.survey.specs.Table.{rows_due, first_wall, parts_row};
ghost use Rattle.survey.specs.Judgement.{judging};
ghost use Rattle.survey.specs.Walls.{storey_walls};
ghost use Rattle.diagnosis.specs.Rows.{storey_of, storey_part, end_part, wall_of, items_of, repaired, dates_of};
ghost use Rattle.diagnosis.specs.House.{InHouse};
ghost use Rattle.diagnosis.specs.Premises.{Stands, HouseOf};

use answer::{ROW, Refusal};
use method::{House, HousePart, Items, Storey, Wall};
use survey::columns::{
    COMPLETION, END_AREA, FLOOR_AREA, FLOOR_TYPE, FOUNDATION, GROUND, JOINT, LENGTH, MARKED,
    PART_STOREYS, PRESENT, REPAIRED, SHORT_SIDE, SNOW, START_OF_WORK, STOREYS, STRENGTH,
    SURVEY_DAY, VOID, WALL_TYPE, WEIGHT, ZONE,
};
use survey::{cell, judge, storey_run};

// The direction in which a wall stands, by its number in the table.
#[derive(Clone, Copy, Debug, PartialEq, Eq)]
pub enum Direction {
    X = 1,
    Y = 2,
}

// An end of a storey in a direction.
#[derive(Clone, Copy, Debug, PartialEq, Eq)]
pub enum End {
    A = 0,
    B = 1,
}

// The dates row: the days on which work started, the house was completed and it was surveyed.
#[derive(Clone, Copy, Debug, PartialEq, Eq)]
pub struct Dates {
    pub start: u32,
    pub completion: u32,
    pub survey: u32,
}

// A wall, by its row.
pub(crate) fn wall_of(wall: &[u32; ROW]) -> Wall
    ensures { result ≡ wall_of wall.now 0 }
{
    Wall {
        strength: wall[STRENGTH],
        length: wall[LENGTH],
        joint: wall[JOINT],
        walltype: wall[WALL_TYPE],
    }
}

// The house row of an accepted table.
fn house_of(table: &[u32]) -> House
    requires { Stands table.now }
    ensures { HouseOf table.now result }
{
    House {
        storeys: cell(table, 0, STOREYS),
        weight: cell(table, 0, WEIGHT),
        zone: cell(table, 0, ZONE) as u8,
        ground_class: cell(table, 0, GROUND),
        foundation: cell(table, 0, FOUNDATION),
        snow: cell(table, 0, SNOW),
    }
}

// A table that is accepted, what its house row says, and how many rows it has: the last is the dates row,
// and the parts row stands before it. (The count of rows is what judging answers.)
#[derive(Clone, Copy, Debug, PartialEq, Eq)]
pub struct AcceptedTable<'a> {
    pub table: &'a [u32],
    pub house: House,
    pub rows: usize,
    pub ghost of_house: { HouseOf table.now house },
    pub ghost rows_are: { rows ≡ rows_due table.now },
}

impl<'a> AcceptedTable<'a> {
    ghost use Rattle.diagnosis.specs.Internal.{direction_number, end_number};

    // Judges any table: the table as an accepted one, or its refusal.
    pub fn judged(table: &'a [u32]) -> Result<AcceptedTable<'a>, Refusal>
        ensures accepted { IfOk result (λ accepted. accepted.table.now ≡ table.now) }
        ensures refused { IfErr result (λ refusal. told (Err refusal) ≡ judging table.now) }
    {
        let rows = judge(table)? as usize;
        let house = house_of(table);
        Ok(AcceptedTable { table, house, rows })
    }

    // A storey's row, which is the row of its number.
    pub(crate) fn storey(&self, storey: u32) -> Storey
        ensures { result ≡ storey_of self.now.table.now storey }
    {
        let row = storey as usize;
        Storey {
            number: storey,
            area: cell(self.table, row, FLOOR_AREA),
            side: cell(self.table, row, SHORT_SIDE),
            floor: cell(self.table, row, FLOOR_TYPE),
            void: cell(self.table, row, VOID),
        }
    }

    // A whole storey as a part that strength is required of.
    pub(crate) fn storey_part(&self, storey: Storey) -> HousePart
        ensures { result ≡ storey_part self.now.house storey }
    {
        HousePart {
            storey: storey.number,
            storeys: self.house.storeys,
            area: storey.area,
        }
    }

    // An end of a storey in a direction as a part that strength is required of.
    pub(crate) fn end_part(&self, storey: u32, direction: Direction, end: End) -> HousePart
        requires { InHouse self.now.table.now storey (direction_number direction) }
        ensures { result ≡ end_part self.now.table.now storey (direction_number direction) (end_number end) }
    {
        // `survey`'s own `Table` has this row too, but is private there.
        let first_ends = self.house.storeys as usize + 1;
        let row = first_ends + 2 * (storey as usize - 1) + (direction as usize - 1);
        HousePart {
            storey,
            storeys: cell(self.table, row, PART_STOREYS + end as usize),
            area: cell(self.table, row, END_AREA + end as usize),
        }
    }

    // The walls of a storey: none where the house lacks it.
    #[tactic(auto, using(survey::proofs::StoreyWalls::run_is_walls))]
    pub(crate) fn walls(&self, storey: u32) -> &'a [u32]
        ensures { result.now ≡ storey_walls self.now.table.now storey }
    {
        storey_run(self.table, storey)
    }

    // The row of the first wall, counted from 0: the walls stand from there to the parts row.
    pub fn first_wall(&self) -> usize
        ensures { result ≡ first_wall self.now.table.now }
    {
        3 * self.house.storeys as usize + 1
    }

    // The parts row, counted from 0.
    pub fn parts_row(&self) -> usize
        ensures { result ≡ parts_row self.now.table.now }
    {
        self.rows - 2
    }

    // The two sets of the parts row.
    pub(crate) fn items(&self) -> Items
        ensures { result ≡ items_of self.now.table.now }
    {
        let parts = self.parts_row();
        Items {
            present: cell(self.table, parts, PRESENT),
            marked: cell(self.table, parts, MARKED),
        }
    }

    // Whether the house was repaired, by the parts row.
    pub(crate) fn repaired(&self) -> bool
        ensures { result ≡ eqb (repaired self.now.table.now) 1 }
    {
        cell(self.table, self.parts_row(), REPAIRED) == 1
    }

    // The dates row.
    pub(crate) fn dates(&self) -> Dates
        ensures { result ≡ dates_of self.now.table.now }
    {
        let dates = self.rows - 1;
        Dates {
            start: cell(self.table, dates, START_OF_WORK),
            completion: cell(self.table, dates, COMPLETION),
            survey: cell(self.table, dates, SURVEY_DAY),
        }
    }
}
