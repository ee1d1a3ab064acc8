// The factors that 000 prints for the joints of a wall's columns, laid out as its pages have them: a line a
// joint, with the strengths over it and, in ② and ③, under each strength the three foundations. They are in
// hundredths, each with three digits, so that it stands under its heading: 085 is the page's 0.85.

// In ② and ③ a joint's line: at each of the four strengths the factors for foundations I, II and III.
pub(crate) type Line = [[u8; 3]; 4];

// Such a line as it is printed.
macro_rules! line {
    ($($i:literal $ii:literal $iii:literal),*) => {
        [$([$i, $ii, $iii]),*]
    };
}

// Table 4.3, and once more as reference 2: no snow.

// ① The top storey of two or three.
//   2.0  3.0  5.0  7.0 kN/m
const TOP_STOREY_NO_SNOW: [[u8; 4]; 4] = [
    [100, 100, 100, 100], // joint I
    [100, 080, 065, 050], // joint II
    [070, 060, 045, 035], // joint III
    [070, 035, 025, 020], // joint IV
];

// ② The other storeys of two or three.
//        2.0          3.0          5.0          7.0 kN/m
//        I   II  III  I   II  III  I   II  III  I   II  III foundation
const OTHER_STOREY_NO_SNOW: [Line; 4] = [
    line![100 100 100, 100 090 080, 100 085 070, 100 080 060], // joint I
    line![100 100 100, 100 090 080, 090 080 070, 080 070 060], // joint II
    line![100 100 100, 080 080 080, 070 070 070, 060 060 060], // joint III
    line![100 100 100, 080 080 080, 070 070 070, 060 060 060], // joint IV
];

// ③ One storey.
//        2.0          3.0          5.0          7.0 kN/m
//        I   II  III  I   II  III  I   II  III  I   II  III foundation
const ONE_STOREY_NO_SNOW: [Line; 3] = [
    line![100 085 070, 100 085 070, 100 080 070, 100 080 070], // joint I
    line![100 085 070, 090 075 070, 085 070 065, 080 070 060], // joint II
    line![070 070 070, 060 060 060, 050 050 050, 030 030 030], // joint IV, and III
];

// Table 4.4: snow of 1 m, where it is cleared off.

// ① The top storey of two or three.
//   2.0  3.0  5.0  7.0 kN/m
const TOP_STOREY_1M: [[u8; 4]; 4] = [
    [100, 100, 100, 100], // joint I
    [100, 090, 085, 075], // joint II
    [100, 075, 065, 055], // joint III
    [100, 075, 060, 050], // joint IV
];

// ② The other storeys of two or three.
//        2.0          3.0          5.0          7.0 kN/m
//        I   II  III  I   II  III  I   II  III  I   II  III foundation
const OTHER_STOREY_1M: [Line; 4] = [
    line![100 100 100, 100 100 100, 100 090 085, 100 085 075], // joint I
    line![100 100 100, 100 100 100, 095 090 085, 095 085 075], // joint II
    line![100 100 100, 100 100 100, 085 085 085, 075 075 075], // joint III
    line![100 100 100, 100 100 100, 085 085 085, 075 075 075], // joint IV
];

// ③ One storey.
//        2.0          3.0          5.0          7.0 kN/m
//        I   II  III  I   II  III  I   II  III  I   II  III foundation
const ONE_STOREY_1M: [Line; 3] = [
    line![100 100 100, 100 085 075, 100 080 070, 100 080 070], // joint I
    line![100 100 100, 090 080 075, 085 070 065, 080 070 060], // joint II
    line![100 100 100, 075 075 075, 065 065 065, 035 035 035], // joint IV, and III
];

// Table 4.4: snow of 2 m, where it is not cleared off.

// ① The top storey of two or three.
//   2.0  3.0  5.0  7.0 kN/m
const TOP_STOREY_2M: [[u8; 4]; 4] = [
    [100, 100, 100, 100], // joint I
    [100, 095, 085, 080], // joint II
    [100, 085, 075, 070], // joint III
    [100, 085, 075, 070], // joint IV
];

// ② The other storeys of two or three.
//        2.0          3.0          5.0          7.0 kN/m
//        I   II  III  I   II  III  I   II  III  I   II  III foundation
const OTHER_STOREY_2M: [Line; 4] = [
    line![100 100 100, 100 100 100, 100 095 095, 100 095 090], // joint I
    line![100 100 100, 100 100 100, 100 095 095, 100 095 090], // joint II
    line![100 100 100, 100 100 100, 095 095 095, 090 090 090], // joint III
    line![100 100 100, 100 100 100, 095 095 095, 090 090 090], // joint IV
];

// ③ One storey.
//        2.0          3.0          5.0          7.0 kN/m
//        I   II  III  I   II  III  I   II  III  I   II  III foundation
const ONE_STOREY_2M: [Line; 3] = [
    line![100 100 100, 100 090 085, 100 085 075, 100 085 075], // joint I
    line![100 100 100, 095 090 085, 085 080 075, 080 075 070], // joint II
    line![100 100 100, 085 085 085, 080 080 075, 050 050 050], // joint IV, and III
];

// Table 4.4: snow of 2.5 m, where it is not cleared off. Its ② is that of 2 m once more.

// ① The top storey of two or three.
//   2.0  3.0  5.0  7.0 kN/m
const TOP_STOREY_2M50: [[u8; 4]; 4] = [
    [100, 100, 100, 100], // joint I
    [100, 095, 090, 085], // joint II
    [100, 090, 080, 075], // joint III
    [100, 090, 080, 075], // joint IV
];

// ② The other storeys of two or three.
//        2.0          3.0          5.0          7.0 kN/m
//        I   II  III  I   II  III  I   II  III  I   II  III foundation
const OTHER_STOREY_2M50: [Line; 4] = [
    line![100 100 100, 100 100 100, 100 095 095, 100 095 090], // joint I
    line![100 100 100, 100 100 100, 100 095 095, 100 095 090], // joint II
    line![100 100 100, 100 100 100, 095 095 095, 090 090 090], // joint III
    line![100 100 100, 100 100 100, 095 095 095, 090 090 090], // joint IV
];

// ③ One storey.
//        2.0          3.0          5.0          7.0 kN/m
//        I   II  III  I   II  III  I   II  III  I   II  III foundation
const ONE_STOREY_2M50: [Line; 3] = [
    line![100 100 100, 100 100 100, 100 095 095, 100 090 080], // joint I
    line![100 100 100, 100 100 100, 100 095 095, 100 075 070], // joint II
    line![100 100 100, 100 100 100, 090 090 090, 060 060 060], // joint IV, and III
];

// A position's tables by the house's snow: 0 none, 1 for 1 m cleared, 2 for 2 m, 3 for 2.5 m.
pub(crate) static TOP_STOREY: [[[u8; 4]; 4]; 4] = [
    TOP_STOREY_NO_SNOW,
    TOP_STOREY_1M,
    TOP_STOREY_2M,
    TOP_STOREY_2M50,
];

pub(crate) static OTHER_STOREY: [[Line; 4]; 4] = [
    OTHER_STOREY_NO_SNOW,
    OTHER_STOREY_1M,
    OTHER_STOREY_2M,
    OTHER_STOREY_2M50,
];

pub(crate) static ONE_STOREY: [[Line; 3]; 4] = [
    ONE_STOREY_NO_SNOW,
    ONE_STOREY_1M,
    ONE_STOREY_2M,
    ONE_STOREY_2M50,
];
