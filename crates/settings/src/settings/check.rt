// The one conversion that makes settings.
ghost use Rattle.std.specs.Prelude.{◌≡◌};
ghost use Rattle.settings.specs.Checks.{in_ranges, AreSettings};

use super::Settings;
use crate::fault::RunFault;
use crate::numbers::Numbers;

// Whether each number lies in its own range; the rank may here be as great as the greatest length.
fn in_ranges(n: Numbers) -> bool
    ensures { result ≡ in_ranges n }
{
    (1..=1024).contains(&n.frames)
        && (2..=4096).contains(&n.long)
        && (1..=4095).contains(&n.behind)
        && (1..=4096).contains(&n.nth)
        && (1..=200).contains(&n.tracked)
        && n.front <= 1024
}

impl TryFrom<Numbers> for Settings {
    type Error = RunFault;

    ghost try_from_gives = { AreSettings };

    // Settings of these numbers, or why there are none.
    fn try_from(n: Numbers) -> Result<Settings, RunFault> {
        if !in_ranges(n) {
            return Err(RunFault::OutOfRange);
        }
        if n.nth > n.long {
            return Err(RunFault::NthAboveLong);
        }
        Ok(Settings {
            frames: n.frames as u16,
            long: n.long as u16,
            behind: n.behind as u16,
            nth: n.nth as u16,
            tracked: n.tracked as u16,
            front: n.front as u16,
        })
    }
}
