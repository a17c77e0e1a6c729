//! Which calls fail.

ghost use Rattle.std.specs.Prelude.{◌≡◌, ◌+◌, ◌-◌, ◌≤◌, min, max, ◌^◌, Contains, IsErr, OnOk, OnErr, ◌↔◌};
ghost use Rattle.ep_outside.specs.Outside.{HasRisen};

use ep_outside::Failed;

/// A count of calls, the numbers of those that fail, and how often one has failed.
#[derive(Drop)]
pub struct Faults {
    pub made: u64,
    pub fails: Vec<u64>,
    pub failures: u64,
}

impl Faults {
    pub fn new(fails: Vec<u64>) -> Faults
        ensures fails { result.fails ≡ fails }
        ensures made { result.made ≡ 0 }
        ensures none { result.failures ≡ 0 }
    {
        Faults {
            made: 0,
            fails,
            failures: 0,
        }
    }

    /// One call more.
    pub fn call(&mut self) -> Result<(), Failed>
        ensures exactly { IsErr result ↔ Contains self.old.fails.items self.new.made }
        ensures number { self.new.made ≡ max self.old.made (min (self.old.made + 1) (2 ^ 64 - 1)) }
        ensures later { self.old.failures ≤ self.new.failures }
        ensures err { OnErr result (HasRisen self.old.failures self.new.failures) }
        ensures ok { OnOk result (self.new.failures ≡ self.old.failures) }
        ensures same { self.new.fails.items ≡ self.old.fails.items }
    {
        self.made = self.made.saturating_add(1);
        if self.fails.contains(&self.made) {
            self.fail();
            return Err(Failed);
        }
        Ok(())
    }

    /// A call failed.
    pub fn fail(&mut self)
        ensures risen { HasRisen self.old.failures self.new.failures }
        ensures later { self.old.failures ≤ self.new.failures }
        ensures same { self.new.fails.items ≡ self.old.fails.items }
        ensures number { self.new.made ≡ self.old.made }
    {
        self.failures = self.failures.saturating_add(1);
    }
}
