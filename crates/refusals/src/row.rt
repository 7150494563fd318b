// The tests of one row, and of two neighbours, each lent by itself.
ghost use Rattle.std.specs.Prelude.{◌≡◌, not};
ghost use Rattle.places.specs.Places.{before};
ghost use Rattle.world.specs.Rows.{pos_of};
ghost use Rattle.refusals.specs.Check.{is_bad, is_overdriven};

use blocks::kind;
use layout::good_row;
use levels::signal::Signal;
use world::row::pos_in;

// Whether a field of the row is outside the layout, or its kind is none of so many.
pub fn is_bad(kinds: usize, row: &[u8; 32]) -> bool
    ensures { result ≡ is_bad kinds row.now 0 }
{
    !(good_row(row) & ((row[12] as usize) < kinds))
}

// Whether the next row does not come after the row.
pub fn is_misplaced(row: &[u8; 32], next: &[u8; 32]) -> bool
    ensures { result ≡ not (before (pos_of row.now 0) (pos_of next.now 0)) }
{
    !pos_in(row).before(pos_in(next))
}

// Whether the row is a comparator whose given level is above 15.
pub fn is_overdriven(row: &[u8; 32]) -> bool
    ensures { result ≡ is_overdriven row.now 0 }
{
    (row[12] == kind::COMPARATOR) & ((row[15] == 1) & (Signal::MAX < row[16]))
}
