//! What a spelling is appended to: a text, or bytes.

ghost use Rattle.std.specs.Prelude.{◌≡◌, ◌<◌, ◌≤◌, ◌++◌, ◌∷◌, [], OnOk};
ghost use Rattle.ep_units.specs.Base36.{digit, write36};

use ep_units::{NoMemory, Units, write36};

/// A list that a spelling is appended to, whose units are ASCII.
pub trait Spell {
    ghost use Rattle.ep_units.specs.Text.{Text};

    /// What stands in it.
    ghost spelled: { Self → Text };

    fn put(&mut self, unit: u8) -> Result<(), NoMemory>
        ensures put { OnOk result (spelled self.new ≡ spelled self.old ++ unit ∷ []) };

    /// Appends the shortest spelling of a number in base 36.
    fn put36(&mut self, n: u64) -> Result<(), NoMemory>
        ensures put { OnOk result (spelled self.new ≡ spelled self.old ++ write36 n) };
}

impl Spell for Units {
    ghost spelled = { λ units. units };

    fn put(&mut self, unit: u8) -> Result<(), NoMemory> {
        self.push(u16::from(unit))
    }

    fn put36(&mut self, n: u64) -> Result<(), NoMemory> {
        write36(n, self)
    }
}

fn digit(value: u64) -> u8
    requires { value < 36 }
    ensures { result ≡ digit value }
{
    (if value < 10 { 48 + value } else { 87 + value }) as u8
}

/// Appends the digits of a number that has two or more, the highest first.
#[tactic(auto, using(ep_units::proofs::Digits::write36_small))]
fn put_digits(n: u64, out: &mut Vec<u8>) -> Result<(), NoMemory>
    requires { 36 ≤ n }
    ensures { OnOk result (out.new.items ≡ out.old.items ++ write36 n) }
{
    if n < 1296 {
        out.push(digit(n / 36))?;
    } else if n < 46656 {
        out.push(digit(n / 36 / 36))?;
        out.push(digit(n / 36 % 36))?;
    } else {
        put_digits(n / 36, out)?;
    }
    out.push(digit(n % 36))?;
    Ok(())
}

impl Spell for Vec<u8> {
    ghost spelled = { λ bytes. bytes.items };

    fn put(&mut self, unit: u8) -> Result<(), NoMemory> {
        self.push(unit)?;
        Ok(())
    }

    #[inline(always)]
    #[tactic(auto, using(ep_units::proofs::Digits::write36_small))]
    fn put36(&mut self, n: u64) -> Result<(), NoMemory> {
        if n < 36 {
            self.push(digit(n))?;
            return Ok(());
        }
        put_digits(n, self)
    }
}
