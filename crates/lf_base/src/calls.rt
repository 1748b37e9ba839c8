ghost use Rattle.std.specs.Prelude.{◌≡◌, ◌+◌, ◌-◌, ◌^◌, ◌↔◌, IsTrue, Contains, min};

/// The numbers of an object's calls: that of the next one, and those that fail.
#[derive(Drop)]
pub struct Calls {
    pub next: u64,
    pub fails: Vec<u64>,
}

impl Calls {
    /// No call yet.
    pub fn new(fails: Vec<u64>) -> Calls
        ensures { (result.next ≡ 0) × (result.fails ≡ fails) }
    {
        Calls { next: 0, fails }
    }

    /// Numbers a call, and says whether it is one that fails. The number stays at the type's last
    /// value once it has reached it.
    pub fn take(&mut self) -> bool
        ensures refused { IsTrue result ↔ Contains self.old.fails.items self.old.next }
        ensures next { self.new.next ≡ min (self.old.next + 1) (2 ^ 64 - 1) }
        ensures fails { self.new.fails ≡ self.old.fails }
    {
        let call = self.next;
        self.next = call.saturating_add(1);
        self.fails.contains(&call)
    }
}
