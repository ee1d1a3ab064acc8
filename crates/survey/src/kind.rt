// The kinds of a table's rows and of a report's, and the types of a wall.

// Document 01, "The sheet and the table" and "The report", and document 02, request 3: the number in a row's
// first column. A report has a row of results for each storey and direction, and the verdict's.
#[derive(Clone, Copy, Debug, PartialEq, Eq)]
pub enum RowKind {
    House = 1,
    Storey = 2,
    Ends = 3,
    Wall = 4,
    Parts = 5,
    Result = 6,
    Verdict = 7,
    Dates = 8,
}

// Document 01, "The sheet and the table", "Walls": the number in a wall row's last column.
#[derive(Clone, Copy, Debug, PartialEq, Eq)]
pub enum WallType {
    Solid = 1,
    Window = 2,
    FullHeightOpening = 3,
}
