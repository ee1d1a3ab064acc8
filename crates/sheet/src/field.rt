// One field: its characters read as a number, and a number printed.
ghost use Rattle.std.specs.Prelude.{◌≡◌, ◌<◌, length};
ghost use Rattle.sheet.specs.Field.{digit, number_in, digit_or_space, printed};

// How many characters a field has.
pub(crate) const FIELD_WIDTH: usize = 8;

// What a digit counts; none where the character is no digit.
#[tactic(auto, unfolding(crate::specs::Field::digit))]
fn digit(character: u8) -> Option<u32>
    ensures { result ≡ digit character }
{
    match character {
        b'0'..=b'9' => Some(u32::from(character - b'0')),
        _ => None,
    }
}

// The number that a field's characters make, or none where they are no field.
#[tactic(auto, using(crate::proofs::Fields::reading_steps), unfolding(crate::specs::Field::field))]
pub(crate) fn scan(characters: &[u8; FIELD_WIDTH]) -> Option<u32>
    ensures { result ≡ number_in characters.now }
{
    // None as long as the characters are spaces.
    let mut number = None;
    for &character in characters {
        match number {
            None if character == b' ' => {}
            None => number = Some(digit(character)?),
            // Nothing comes after a first 0.
            Some(0) => return None,
            Some(n) => number = Some(10 * n + digit(character)?),
        }
    }
    number
}

// The character at the place of the tens (weight 10), of the hundreds (weight 100) and so on: the
// number's digit there, or a space where the number is smaller than the weight.
#[tactic(auto, unfolding(crate::specs::Field::digit_or_space))]
fn digit_or_space(weight: u32, n: u32) -> u8
    requires { 0 < weight }
    ensures { result ≡ digit_or_space weight n }
{
    if n < weight {
        return b' ';
    }
    b'0' + (n / weight % 10) as u8
}

// Prints a number over the eight characters of a field: its last eight digits, if it has more. They are
// written in place, since an array handed back by value takes a fifth more time, and a line a place, as the
// definition has them: the last is no `digit_or_space`, so a loop over the weights would be no plainer.
pub(crate) fn print(n: u32, characters: &mut [u8])
    requires { length characters.old ≡ 8 }
    ensures { characters.new ≡ printed n }
{
    characters[0] = digit_or_space(10_000_000, n);
    characters[1] = digit_or_space(1_000_000, n);
    characters[2] = digit_or_space(100_000, n);
    characters[3] = digit_or_space(10_000, n);
    characters[4] = digit_or_space(1_000, n);
    characters[5] = digit_or_space(100, n);
    characters[6] = digit_or_space(10, n);
    characters[7] = b'0' + (n % 10) as u8;
}
