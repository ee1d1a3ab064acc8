// What the method goes by, by value: what a table's rows say of a house, and the strengths and bands that
// are worked out from them. The numbers of one thing stand together, each by its name, so that a caller
// never hands over two of a kind side by side, where one could be taken for the other.
//
// Kinds and classes are numbers here, as they are in the rows, where any number may stand: an enum would
// ask of callers that they are known, and each function says what it answers for the others too. For the
// same reason a void, an age and whether a house was repaired stay numbers wherever they are handed over.
//
// A public function takes a house and a storey, or a wall's storey, side by side: callers hold them apart,
// one house with the storeys one after the other, and would have to copy them together for each wall.

// A house, by its row: its storeys, weight class (1 light, 2 heavy, 3 very heavy), zone in hundredths,
// ground (1 ordinary, 2 very soft), foundation (1 to 3) and snow (0 none, 1 for 1 m cleared, 2 for 2 m, 3
// for 2.5 m).
#[derive(Clone, Copy, Debug, PartialEq, Eq)]
pub struct House {
    pub storeys: u32,
    pub weight: u32,
    pub zone: u8,
    pub ground_class: u32,
    pub foundation: u32,
    pub snow: u32,
}

// A storey, by its row: its number from the ground up, floor area in 0.01 m², short side in mm, floor
// type (1 to 3), and 1 if there is a void of 4 m or more, else 0.
#[derive(Clone, Copy, Debug, PartialEq, Eq)]
pub struct Storey {
    pub number: u32,
    pub area: u32,
    pub side: u32,
    pub floor: u32,
    pub void: u32,
}

// A part of the house in a storey, of which strength is required: the whole storey, or an end quarter of
// it. The storey, the number of storeys of that part of the house, and its area in 0.01 m².
#[derive(Clone, Copy, Debug, PartialEq, Eq)]
pub struct HousePart {
    pub storey: u32,
    pub storeys: u32,
    pub area: u32,
}

// A wall: its strength in 0.1 kN/m, length in mm, joint (1 to 4) and type (1 solid, 2 window opening, 3
// full-height opening).
#[derive(Clone, Copy, Debug, PartialEq, Eq)]
pub struct Wall {
    pub strength: u32,
    pub length: u32,
    pub joint: u32,
    pub walltype: u32,
}

// The two sets of the parts row, of the items that are present and of those marked. Item 1 is worth 1, each
// next item twice the one before.
#[derive(Clone, Copy, Debug, PartialEq, Eq)]
pub struct Items {
    pub present: u32,
    pub marked: u32,
}

// What a storey or an end holds, in 0.000001 kN, and what is required of it, in 0.000000001 kN.
#[derive(Clone, Copy, Debug, PartialEq, Eq)]
pub struct Strengths {
    pub held: u64,
    pub required: u64,
}

// The bands of a storey's ends a and b in a direction, each A as 0 to E as 4. They stay numbers, since the
// layout factor takes any number.
#[derive(Clone, Copy, Debug, PartialEq, Eq)]
pub struct Bands {
    pub a: u32,
    pub b: u32,
}
