// What a list of calls has shown so far.
ghost use Rattle.std.specs.Prelude.{◌≡◌, ◌+◌, ◌%◌, ◌^◌};

// How many calls were made, and how many of them did not give what they must. Both are counted round at 2 ^ 32.
#[derive(Clone, Copy)]
pub struct Tally {
    pub calls: u32,
    pub differences: u32,
}

pub fn no_calls() -> Tally
    ensures { result ≡ record { calls = 0; differences = 0 } }
{
    Tally {
        calls: 0,
        differences: 0,
    }
}

impl Tally {
    // With so many calls and differences more.
    pub fn with(self, calls: u32, differences: u32) -> Tally
        ensures calls_value { result.calls ≡ (self.calls + calls) % 2 ^ 32 }
        ensures differences_value { result.differences ≡ (self.differences + differences) % 2 ^ 32 }
    {
        Tally {
            calls: self.calls.wrapping_add(calls),
            differences: self.differences.wrapping_add(differences),
        }
    }
}
