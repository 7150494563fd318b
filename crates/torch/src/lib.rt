// A torch's step.
#![tactic(auto)]

ghost use Rattle.std.specs.Prelude.{◌≡◌};
ghost use Rattle.torch.specs.Step.{torch_support_is_powered, next_toggles, next_candidate, torch_row};

use columns::{Found, larger};
use levels::{Power, number};
use ports::PreparedRow;
use states::bits::is_candidate;
use states::row::toggles_of;
use words::write_word;

#[tactic(auto, unfolding(crate::specs::Step::torch_support_is_powered))]
fn torch_support_is_powered(profile: &[u8], at: PreparedRow, power: Power) -> bool
    ensures { result ≡ torch_support_is_powered profile.now at.entry.table.now power.entry.weak.now power.entry.strong.now at.entry.row }
{
    let Found::At(j) = at.support_row() else {
        return false;
    };
    let conducts = traits::redstone_traits(profile, at.table, j).conducts();
    conducts & power.any_at(j)
}

// A toggle more at bit 0; what is older than 30 ticks is dropped.
#[tactic(auto, unfolding(crate::specs::Step::next_toggles))]
fn next_toggles(old: u32, toggled: bool) -> u32
    ensures { result ≡ next_toggles old toggled }
{
    let kept = old % 1073741824 * 2;
    if toggled { kept + 1 } else { kept }
}

#[tactic(auto, unfolding(crate::specs::Step::next_candidate))]
fn next_candidate(old: u8, toggles: u32) -> u8
    ensures { result ≡ next_candidate old toggles }
{
    larger(old, number(is_candidate(toggles)))
}

#[tactic(auto, unfolding(crate::specs::Step::torch_row))]
pub fn torch_step(profile: &[u8], at: PreparedRow, power: Power, sixteen: &mut [u8; 16])
    ensures { sixteen.new ≡ torch_row profile.now at.entry.table.now power.entry.weak.now power.entry.strong.now at.entry.row sixteen.old }
{
    let lit = number(!torch_support_is_powered(profile, at, power));
    let toggles = next_toggles(toggles_of(sixteen), lit != sixteen[0]);
    let candidate = next_candidate(sixteen[8], toggles);
    sixteen[0] = lit;
    write_word(sixteen, 4, toggles);
    sixteen[8] = candidate;
}
