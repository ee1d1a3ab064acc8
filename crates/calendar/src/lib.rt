// The Gregorian calendar: which numbers are days, and how old on a day is what was completed on another.
//
// Uses no other crate. Document 02, request 3: a day is a number of eight digits, four of the year, two of
// the month and two of the day of the month, so that of two days the later has the greater number. The
// definitions stand in specs/Days.antt and the theorems in proofs/Theorems.antt. Every function takes any
// numbers, also those of years that a sheet may not have.
#![tactic(auto, using(std::proofs::lemmas::Bool::Decides::nat_tests), unfolding(crate::specs::Days::is_leap, crate::specs::Days::days_in, crate::specs::Days::is_date, crate::specs::Days::is_day, crate::specs::Days::ten_years_after, crate::specs::Days::age_on))]

ghost use Rattle.std.specs.Prelude.{◌≡◌, unwrap_or};
ghost use Rattle.calendar.specs.Days.{is_leap, days_in, is_date, is_day, year_of, month_of, day_of, numbered, ten_years_after, age_on};

// Whether February has a 29th in a year: 1900 is no leap year, and 2000 is one.
fn is_leap(year: u32) -> bool
    ensures { result ≡ is_leap year }
{
    year.is_multiple_of(4) && (!year.is_multiple_of(100) || year.is_multiple_of(400))
}

// How many days a month of a year has, where there is such a month.
fn days_in(year: u32, month: u32) -> Option<u32>
    ensures { unwrap_or result 0 ≡ days_in year month }
{
    match month {
        2 if is_leap(year) => Some(29),
        2 => Some(28),
        4 | 6 | 9 | 11 => Some(30),
        1..=12 => Some(31),
        _ => None,
    }
}

// A year, a month and a day of the month, of which there may be no such date.
#[derive(Clone, Copy, Debug, PartialEq, Eq)]
struct Date {
    year: u32,
    month: u32,
    day: u32,
}

impl Date {
    // The parts of a number.
    fn of(number: u32) -> Date
        ensures { result ≡ record { year = year_of number; month = month_of number; day = day_of number } }
    {
        Date {
            year: number / 10_000,
            month: number / 100 % 100,
            day: number % 100,
        }
    }

    // Whether the calendar has the date.
    fn exists(self) -> bool
        ensures { result ≡ is_date self.year self.month self.day }
    {
        days_in(self.year, self.month).is_some_and(|days| (1..=days).contains(&self.day))
    }

    // The number of its parts, which may have more than 32 bits.
    fn number(self) -> u64
        ensures { result ≡ numbered self.year self.month self.day }
    {
        10_000 * u64::from(self.year) + 100 * u64::from(self.month) + u64::from(self.day)
    }
}

// Whether a number is a day.
pub fn is_day(number: u32) -> bool
    ensures { result ≡ is_day number }
{
    Date::of(number).exists()
}

// The same date ten years later, and 1 March where there is no such day. Of the largest numbers it has more
// than 32 bits.
fn ten_years_after(day: u32) -> u64
    ensures { result ≡ ten_years_after day }
{
    let date = Date::of(day);
    let later = Date {
        year: date.year + 10,
        ..date
    };
    if later.exists() {
        later.number()
    } else {
        let first_of_march = Date {
            month: 3,
            day: 1,
            ..later
        };
        first_of_march.number()
    }
}

// The age on a day of what was completed on another: 1 under ten years, 2 ten or more. It stays a number,
// since the deterioration factor that it is handed to takes any number.
pub fn age_on(completion: u32, day: u32) -> u32
    ensures { result ≡ age_on completion day }
{
    if ten_years_after(completion) <= u64::from(day) {
        2
    } else {
        1
    }
}
