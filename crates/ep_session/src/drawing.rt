//! The ten draws of a session.

ghost use Rattle.std.specs.Prelude.{◌<◌};
ghost use Rattle.ep_session.specs.Drawing.{DrawsAll, DrawsDigit};

use ep_dir_records::Drawn;
use ep_outside::Draws;

fn digit<D: Draws>(draws: &mut D) -> u8
    ensures drawn { DrawsDigit (D.to_come draws.old) (D.to_come draws.new) result }
    ensures below { result < 36 }
{
    (draws.next() % 36) as u8
}

/// Draws ten numbers below 36.
pub fn draw<D: Draws>(draws: &mut D) -> Drawn
    ensures { DrawsAll (D.to_come draws.old) (D.to_come draws.new) result.digits }
{
    let digits = [
        digit(draws),
        digit(draws),
        digit(draws),
        digit(draws),
        digit(draws),
        digit(draws),
        digit(draws),
        digit(draws),
        digit(draws),
        digit(draws),
    ];
    Drawn { digits }
}
