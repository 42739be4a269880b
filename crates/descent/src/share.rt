ghost use Rattle.descent.specs.Halves.{IsPartOf};
ghost use Rattle.std.specs.Prelude.{◌+◌, ◌<◌, ◌≤◌};

// A share of many networks: those from the number `low` up to below the number `high`.
#[derive(Clone, Copy)]
pub(crate) struct Share {
    pub(crate) low: u32,
    pub(crate) high: u32,
}

impl Share {
    // Its half that has a number.
    pub(crate) fn half_with(self, number: u32) -> Share
        requires low { self.low ≤ number }
        requires high { number < self.high }
        requires parts { self.low + 1 < self.high }
        ensures part { IsPartOf result self }
        ensures low { result.low ≤ number }
        ensures high { number < result.high }
        ensures smaller { result.high + self.low < self.high + result.low }
    {
        let middle = self.low + (self.high - self.low) / 2;
        if number < middle {
            Share {
                low: self.low,
                high: middle,
            }
        } else {
            Share {
                low: middle,
                high: self.high,
            }
        }
    }
}
