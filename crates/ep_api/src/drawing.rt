//! Draws.

ghost use Rattle.std.specs.Prelude.{◌≡◌, ◌%◌, ℕ, true, nat_lt, Ok};
ghost use Rattle.ep_outside.specs.Drawn.{Draws as DrawsOne};
ghost use Rattle.ep_api.specs.Passes.{ByDraws};
ghost use Rattle.ep_api.specs.Tasks.{draw};

use ep_groups::Drawn;
use ep_outside::Draws;

fn draw_digit<D: Draws>(draws: &mut D) -> u8
    ensures draws { (n : ℕ) × DrawsOne (D.to_come draws.old) (D.to_come draws.new) n × (result ≡ n % 36) }
    ensures below { nat_lt result 36 ≡ true }
{
    (draws.next() % 36) as u8
}

/// The next ten draws.
pub fn draw<D: Draws>(draws: &mut D) -> Drawn
    ensures { ByDraws (D.to_come draws.old) draw (Ok result) (D.to_come draws.new) }
{
    let a = draw_digit(draws);
    let b = draw_digit(draws);
    let c = draw_digit(draws);
    let d = draw_digit(draws);
    let e = draw_digit(draws);
    let f = draw_digit(draws);
    let g = draw_digit(draws);
    let h = draw_digit(draws);
    let i = draw_digit(draws);
    let j = draw_digit(draws);
    Drawn {
        digits: [a, b, c, d, e, f, g, h, i, j],
    }
}
