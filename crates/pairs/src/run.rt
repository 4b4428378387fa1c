// The halves of a run of halfwords that lack their partner.
ghost use Rattle.std.specs.Prelude.{◌≡◌, ◌<◌, length};
ghost use Rattle.pairs.specs.Run.{half_before, lacks_at, unpaired};

use text::read::item_or;
use thumb::{is_first_half, is_second_half};

// The halfword before a place, or 0 at the start.
fn half_before(run: &[u16], i: usize) -> u16
    ensures { result ≡ half_before run.now i }
{
    if i == 0 { 0 } else { item_or(run, i - 1, 0) }
}

// Whether the halfword at a place is a half that lacks its partner.
#[tactic(auto, unfolding(crate::specs::Run::lacks))]
fn lacks_at(run: &[u16], i: usize) -> bool
    requires { i < length run.now }
    ensures { result ≡ lacks_at run.now i }
{
    let h = item_or(run, i, 0);
    let opens_alone = is_first_half(h) && !is_second_half(item_or(run, i + 1, 0));
    let closes_alone = is_second_half(h) && !is_first_half(half_before(run, i));
    opens_alone || closes_alone
}

// The index of the earliest half of a run that lacks its partner, if one does.
pub fn unpaired(run: &[u16]) -> Option<usize>
    ensures { result ≡ unpaired run.now }
{
    (0..run.len()).find(|i| lacks_at(run, *i))
}
