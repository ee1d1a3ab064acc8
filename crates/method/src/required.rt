// The strength that a storey, or an end of it, must have, in 0.000000001 kN.
#![tactic(auto, using(std::proofs::lemmas::Bool::Decides::nat_tests, crate::proofs::Requirements::addition_numbered), unfolding(crate::specs::Required::top_line, crate::specs::Required::per_area, crate::specs::Required::ground_factor, crate::specs::Required::is_narrow, crate::specs::Required::narrow_factor, crate::specs::Required::required_strength))]

ghost use Rattle.std.specs.Prelude.{◌≡◌, unwrap_or};
ghost use Rattle.method.specs.Required.{top_line, constant, snow_addition, per_area, ground_factor, is_narrow, narrow_factor, required_strength};

use crate::printed::numbered;
use crate::rows::{House, HousePart, Storey};

// 000's table 4.1, in 0.01 kN/m²: light, heavy and very heavy buildings. It is one array and no array of slices by
// the number of storeys: a constant that holds places has another layout in WebAssembly.
static CONSTANTS: [[u8; 3]; 6] = [
    [28, 40, 64], // one storey
    [37, 53, 78], // two storeys: storey 2
    [83, 106, 141], // storey 1
    [43, 62, 91], // three storeys: storey 3
    [98, 125, 159], // storey 2
    [134, 166, 207], // storey 1
];

// 000's section 4.1, in 0.01 kN/m²: what is added for 1 m and 2 m of snow, and on the same straight line
// for 2.5 m.
static SNOW_ADDITIONS: [u8; 3] = [26, 52, 65];

// The line of the table where a number of storeys begins, with its top storey.
fn top_line(storeys: u32) -> u32
    ensures { result ≡ top_line storeys }
{
    match storeys {
        1 => 0,
        2 => 1,
        _ => 3,
    }
}

// The constant of a part's storey and the house's weight class, where the table has one.
fn constant(part: HousePart, weight: u32) -> Option<u8>
    ensures { unwrap_or result 0 ≡ constant part weight }
{
    if part.storey < 1 || 3 < part.storeys {
        return None;
    }
    let above = part.storeys.checked_sub(part.storey)?;
    let line = top_line(part.storeys) + above;
    numbered(&CONSTANTS[line as usize], weight)
}

// The addition by the house's snow, where there is one.
fn snow_addition(snow: u32) -> Option<u8>
    ensures { unwrap_or result 0 ≡ snow_addition snow }
{
    numbered(&SNOW_ADDITIONS, snow)
}

// The constant with the addition, which together are beyond a u8; 0 for each that there is not.
fn per_area(house: House, part: HousePart) -> u32
    ensures { result ≡ per_area house part }
{
    let constant = constant(part, house.weight).unwrap_or(0);
    let addition = snow_addition(house.snow).unwrap_or(0);
    u32::from(constant) + u32::from(addition)
}

// Ground 1 is ordinary, 2 very soft.
fn ground_factor(ground_class: u32) -> u8
    ensures { result ≡ ground_factor ground_class }
{
    if ground_class < 2 { 10 } else { 15 }
}

// Whether a storey is narrow, by its short side.
pub fn is_narrow(storey: Storey) -> bool
    ensures { result ≡ is_narrow storey }
{
    storey.side < 4000
}

// The narrow factor of a storey, in hundredths, by whether a storey above it is narrow.
pub fn narrow_factor(narrow_above: bool) -> u8
    ensures { result ≡ narrow_factor narrow_above }
{
    if narrow_above { 113 } else { 100 }
}

// What is required of a part of the house, a storey or an end of it, by its storey's narrow factor in
// hundredths.
pub fn required_strength(house: House, part: HousePart, narrow: u8) -> u64
    ensures { result ≡ required_strength house part narrow }
{
    let per_area = per_area(house, part);
    let ground = ground_factor(house.ground_class);
    u64::from(per_area)
        * u64::from(part.area)
        * u64::from(house.zone)
        * u64::from(ground)
        * u64::from(narrow)
}
