//! The calls of an end in memory, of which some fail.

ghost use Rattle.std.specs.Prelude.{◌≡◌, ◌↔◌, IsTrue, Contains};
ghost use Rattle.er_io.specs.Ends.{one_more};
ghost use Rattle.er_io_system.specs.Memory.{next_call};

/// The numbers of the calls that fail, how many calls came, and how many failed.
#[derive(Drop)]
pub struct Calls {
    failing: Vec<u32>,
    made: u32,
    faults: u64,
}

impl Calls {
    /// No call has come.
    pub fn new(failing: Vec<u32>) -> Calls
        ensures failing { result.failing ≡ failing }
        ensures made { result.made ≡ 0 }
        ensures faults { result.faults ≡ 0 }
    {
        Calls {
            failing,
            made: 0,
            faults: 0,
        }
    }

    /// Counts a call, and answers whether it is one of those that fail.
    pub fn begin(&mut self) -> bool
        ensures answer { IsTrue result ↔ Contains self.old.failing.items self.new.made }
        ensures change { self.new ≡ record self.old { made = next_call self.old.made } }
    {
        self.made = self.made.saturating_add(1);
        self.failing.contains(&self.made)
    }

    /// Counts a call that failed.
    pub fn fail(&mut self)
        ensures { self.new ≡ record self.old { faults = one_more self.old.faults } }
    {
        self.faults = self.faults.saturating_add(1);
    }

    /// How many calls came, those that failed too.
    pub fn made(&self) -> u32
        ensures { result ≡ self.now.made }
    {
        self.made
    }

    /// How many calls have failed.
    pub fn faults(&self) -> u64
        ensures { result ≡ self.now.faults }
    {
        self.faults
    }
}
