// Whether the proved functions of dust answer as the original did. Each function takes the parts of its operation's record.
#![tactic(auto)]

pub mod right;

ghost use Rattle.std.specs.Prelude.{◌≡◌, ℤ};
ghost use Rattle.wire_answers.specs.Answers.{arms_agree, transfer_agrees, redraw_agrees_in, redraw_agrees};

use columns::same;
use places::Pos;
use records::{MOST_BYTES, copied};

// The arm of a dust at a position, as it is inferred and as it is resolved.
pub fn arms_agree(
    profile: &[u8],
    table: &[u8],
    q: Pos,
    facing: u8,
    inferred: u8,
    resolved: u8,
) -> bool
    ensures { result ≡ arms_agree profile.now table.now q facing inferred resolved }
{
    let f = u32::from(facing);
    (probe::probe_infer(profile, table, q.x, q.y, q.z, f) == u32::from(inferred))
        & (probe::probe_resolved(profile, table, q.x, q.y, q.z, f) == u32::from(resolved))
}

// The transfer from one position to another.
pub fn transfer_agrees(profile: &[u8], table: &[u8], q: Pos, sink: Pos, number: u8) -> bool
    ensures { result ≡ transfer_agrees profile.now table.now q sink number }
{
    probe::probe_transfer(profile, table, q.x, q.y, q.z, sink.x, sink.y, sink.z)
        == u32::from(number)
}

// Redraws this table, and compares the answer and the whole table.
fn redraw_agrees_in(profile: &[u8], want: &[u8], answer: u32, table: &mut [u8]) -> bool
    ensures { result ≡ redraw_agrees_in profile.now table.old want.now answer }
{
    let answered = probe::probe_redraw(profile, table);
    (answered == answer) & same(table, want)
}

// The redrawn table.
pub fn redraw_agrees(profile: &[u8], table: &[u8], want: &[u8], answer: u32) -> bool
    ensures { result ≡ redraw_agrees profile.now table.now want.now answer }
{
    let bytes = table.len();
    if MOST_BYTES < bytes {
        return false;
    }
    let mut redrawn = copied(table);
    redraw_agrees_in(profile, want, answer, &mut redrawn[..bytes])
}
