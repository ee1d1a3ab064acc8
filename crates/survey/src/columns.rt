// The columns of a table's rows, from 0, by the words of document 01, "The sheet and the table", and of
// document 02, requests 1 (snow), 3 (dates) and 5 (repaired). Column 6 of the house row, once its age, is
// unused. They are constants and no enum, since one number is the column of several things, by the row's kind.

// In every row its kind; in every row but the house's, the parts' and the dates' its storey.
pub const KIND: usize = 0;

pub const STOREY: usize = 1;

// The house row:
pub const STOREYS: usize = 1;

pub const WEIGHT: usize = 2;

pub const ZONE: usize = 3;

pub const GROUND: usize = 4;

pub const FOUNDATION: usize = 5;

pub const SNOW: usize = 7;

// A storey's row:
pub const FLOOR_AREA: usize = 2;

pub const SHORT_SIDE: usize = 3;

pub const FLOOR_TYPE: usize = 4;

pub const VOID: usize = 5;

// A row of ends. These are the columns of end a; end b's column is the next one each time:
pub const END_AREA: usize = 3;

pub const PART_STOREYS: usize = 5;

// A wall's row. The direction is also a column of a row of ends:
pub const DIRECTION: usize = 2;

pub const PLACE: usize = 3;

pub const STRENGTH: usize = 4;

pub const LENGTH: usize = 5;

pub const JOINT: usize = 6;

pub const WALL_TYPE: usize = 7;

// The parts row:
pub const PRESENT: usize = 1;

pub const MARKED: usize = 2;

pub const REPAIRED: usize = 3;

// The dates row, a day in each:
pub const START_OF_WORK: usize = 1;

pub const COMPLETION: usize = 2;

pub const SURVEY_DAY: usize = 3;
