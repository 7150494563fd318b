// The refusals: which of them falls on the inputs of a call, and the number that the call answers then.
#![tactic(auto)]

mod row;
pub mod scan;

ghost use Rattle.std.specs.Prelude.{◌≡◌, Err, ◌*◌, ◌≤◌, length, get_or};
ghost use Rattle.refusals.specs.Check.{accepted, refuse_row_unless, refuse_unless, refuse_at, RowFits, check_overdriven, check_rows, check_table, check_input, answer_of};

use columns::Found;

// The number of the refusal that falls on a call, and the row at fault. A number and no enum: C is answered the number, and `decode` is of any.
#[derive(Clone, Copy)]
pub struct Refused {
    pub number: u8,
    pub row: u16,
}

// Whether the inputs are accepted, or what falls on them.
pub type Checked = Result<(), Refused>;

impl Refused {
    pub const PROFILE: u8 = 1;

    pub const RAGGED: u8 = 2;

    pub const CROWDED: u8 = 3;

    pub const BAD_ROW: u8 = 4;

    pub const MISPLACED: u8 = 5;

    pub const BAD_STATE: u8 = 6;

    pub const COLUMN: u8 = 7;

    pub const UNSETTLED: u8 = 8;

    pub const CLOCK_END: u8 = 9;

    pub const OVERDRIVEN: u8 = 10;

    pub const OFF_GROUND: u8 = 11;

    pub const CLASH: u8 = 12;

    // The number that a call answers: 65,536 times the refusal's number plus the row.
    pub fn answer(self) -> u32
        ensures { result ≡ answer_of (Err self) 0 }
    {
        65536 * (self.number as u32) + (self.row as u32)
    }
}

// The refusal, at a row, where a test fails.
pub fn refuse_row_unless(number: u8, row: u16, passed: bool) -> Checked
    ensures { result ≡ refuse_row_unless number row passed accepted }
{
    if passed {
        return Ok(());
    }
    Err(Refused { number, row })
}

// The refusal, at row 0, where a test fails.
pub fn refuse_unless(number: u8, passed: bool) -> Checked
    ensures { result ≡ refuse_unless number passed accepted }
{
    refuse_row_unless(number, 0, passed)
}

// The refusal at the row found, so many rows on.
pub fn refuse_at(number: u8, found: Found, on: usize) -> Checked
    requires { RowFits on found }
    ensures { result ≡ refuse_at number on found accepted }
{
    match found {
        Found::At(i) => Err(Refused {
            number,
            row: (i + on) as u16,
        }),
        Found::Nothing => Ok(()),
    }
}

// Refusals 4, 5 and 10, over the rows of a table that is not crowded, so that the number of a row fits.
#[tactic(auto, unfolding(crate::specs::Check::check_rows))]
fn check_rows(kinds: usize, table: &[u8]) -> Checked
    requires { length table.now ≤ 32768 }
    ensures { result ≡ check_rows kinds table.now }
{
    let rows = world::row::rows(table);
    refuse_at(Refused::BAD_ROW, scan::first_bad(kinds, table, rows), 0)?;
    refuse_at(Refused::MISPLACED, scan::first_misplaced(table, rows), 1)?;
    refuse_at(Refused::OVERDRIVEN, scan::first_overdriven(table, rows), 0)
}

// Refusals 2 to 5 and 10, where a profile has bytes for this many kinds.
#[tactic(auto, unfolding(crate::specs::Check::check_table))]
pub fn check_table(kinds: usize, table: &[u8]) -> Checked
    ensures { result ≡ check_table kinds table.now }
{
    refuse_unless(Refused::RAGGED, table.len() % 32 == 0)?;
    refuse_unless(Refused::CROWDED, table.len() / 32 <= 1024)?;
    check_rows(kinds, table)
}

// Refusals 1 to 5 and 10.
#[tactic(auto, unfolding(crate::specs::Check::check_input))]
pub fn check_input(profile: &[u8], table: &[u8]) -> Checked
    ensures { result ≡ check_input profile.now table.now }
{
    refuse_unless(Refused::PROFILE, layout::good_profile(profile))?;
    check_table(profile.len(), table)
}

// Refusal 10 of a device column or a state, with so many bytes for each of at most 1,024 rows, the device byte first.
pub fn check_overdriven(bytes: &[u8], width: usize, rows: usize) -> Checked
    requires { (length bytes.now ≡ rows * width) × (rows ≤ 1024) }
    ensures { result ≡ check_overdriven (λ i. get_or bytes.now (i * width) 0) rows }
{
    let found = scan::first_overdriven_device(bytes, width, rows);
    refuse_at(Refused::OVERDRIVEN, found, 0)
}
