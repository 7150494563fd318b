// The arms of dust drawn anew: `update_wire_shapes`.
#![tactic(auto)]

ghost use Rattle.std.specs.Prelude.{◌≡◌, ◌+◌, ◌*◌, ◌≤◌, eqb, length};
ghost use borrow.Rule.Slice.PartMut.{put_mid};
ghost use Rattle.world.specs.Rows.{rows};
ghost use Rattle.redrawing.specs.Drawn.{entry_of, entries_of, counted, entries_left, added, with_opposite, drawn, redrawn_row, update_wire_shapes};
ghost use Rattle.redraw.specs.Redraw.{Redraws};

use arms::infer_wire_connection;
use blocks::kind;
use places::{Facing, Pos};
use redrawing::Arms;
use traits::{ARM_NONE, ARM_SIDE};
use world::row;

// The inferred arm, or no entry where it is None.
#[tactic(auto, unfolding(redrawing::specs::Drawn::entry_of))]
fn entry_of(profile: &[u8], table: &[u8], pos: Pos, facing: u8) -> u8
    ensures { result ≡ entry_of profile.now table.now pos facing }
{
    let arm = infer_wire_connection(profile, table, pos, facing);
    if arm == ARM_NONE { 0 } else { arm }
}

#[tactic(auto, unfolding(redrawing::specs::Drawn::entries_of))]
fn entries_of(profile: &[u8], table: &[u8], row: usize) -> Arms
    ensures { result ≡ entries_of profile.now table.now row }
{
    let pos = row::pos_of(table, row);
    Arms {
        north: entry_of(profile, table, pos, Facing::NORTH),
        east: entry_of(profile, table, pos, Facing::EAST),
        south: entry_of(profile, table, pos, Facing::SOUTH),
        west: entry_of(profile, table, pos, Facing::WEST),
    }
}

// 1 for an entry, 0 where there is none.
fn counted(entry: u8) -> u8
    ensures { (result ≡ counted entry) × (result ≤ 1) }
{
    u8::from(entry != 0)
}

// Whether exactly one entry is left.
fn is_alone(arms: Arms) -> bool
    ensures { result ≡ eqb (entries_left arms) 1 }
{
    counted(arms.north) + counted(arms.east) + counted(arms.south) + counted(arms.west) == 1
}

// An entry beside the one opposite to it: Side where that one is alone.
fn added(alone: bool, back: u8, own: u8) -> u8
    ensures { result ≡ added alone back own }
{
    if alone && back != 0 { ARM_SIDE } else { own }
}

#[tactic(auto, unfolding(redrawing::specs::Drawn::with_opposite))]
fn with_opposite(arms: Arms) -> Arms
    ensures { result ≡ with_opposite arms }
{
    let alone = is_alone(arms);
    Arms {
        north: added(alone, arms.south, arms.north),
        east: added(alone, arms.west, arms.east),
        south: added(alone, arms.north, arms.south),
        west: added(alone, arms.east, arms.west),
    }
}

// Writes the arms into the 32 bytes of a row.
#[tactic(auto, unfolding(redrawing::specs::Drawn::drawn))]
fn draw(row: &mut [u8], arms: Arms)
    requires { length row.old ≡ 32 }
    ensures { row.new ≡ drawn row.old arms }
{
    row[23] = 1;
    row[24..28].copy_from_slice(&[arms.north, arms.east, arms.south, arms.west]);
}

// Draws one row anew, if it is dust.
#[tactic(auto, unfolding(redrawing::specs::Drawn::redrawn_row))]
fn redraw_row(profile: &[u8], table: &mut [u8], row: usize)
    requires { row * 32 + 32 ≤ length table.old }
    ensures { table.new ≡ put_mid (row * 32) 32 table.old (redrawn_row profile.now table.old row) }
{
    if row::kind_of(table, row) == kind::REDSTONE_WIRE {
        let arms = with_opposite(entries_of(profile, table, row));
        let start = row * row::WIDTH;
        draw(&mut table[start..start + row::WIDTH], arms);
    }
}

// Row after row in place: inference reads no byte that is written here, so each row is drawn as from the table that came.
#[tactic(auto, unfolding(redrawing::specs::Drawn::update_wire_shapes))]
fn redraw(profile: &[u8], table: &mut [u8])
    requires { length table.old ≡ rows table.old * 32 }
    ensures { table.new ≡ update_wire_shapes profile.now table.old }
{
    for i in 0..row::rows(table) {
        redraw_row(profile, table, i);
    }
}

// Draws the arms of every dust anew, and answers 0; or the refusal, with the table as it was.
pub fn update_wire_shapes(profile: &[u8], table: &mut [u8]) -> u32
    ensures { Redraws profile.now table.old table.new result }
{
    if let Err(refused) = refusals::check_input(profile, table) {
        return refused.answer();
    }
    redraw(profile, table);
    0
}
