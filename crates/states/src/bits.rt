// Queue bits and toggle bits.
ghost use Rattle.std.specs.Prelude.{◌≡◌, ◌^◌, ◌≤◌};
ghost use Rattle.states.specs.Row.{is_candidate};

// How many queues of this many bits there are.
#[tactic(auto, using(crate::proofs::Powers::small_power))]
pub fn two_to(bits: u8) -> u8
    requires { bits ≤ 4 }
    ensures { (result ≡ 2 ^ bits) × (result ≤ 16) }
{
    1 << bits
}

// Whether eight or more of the 31 toggle bits are set.
#[tactic(auto, using(crate::proofs::Powers::counted), unfolding(crate::specs::Row::is_candidate))]
pub fn is_candidate(toggles: u32) -> bool
    ensures { result ≡ is_candidate toggles }
{
    8 <= (toggles % 2147483648).count_ones()
}
