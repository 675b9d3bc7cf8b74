ghost use Rattle.std.specs.Prelude.{◌≡◌, ◌≤◌, ◌<◌};
ghost use Rattle.lanelet_network.specs.Strips.{strip as strip_of, reach as reach_of};
ghost use Rattle.lanelet_network.specs.Strips.{is_reached as is_reached_by};
ghost use Rattle.lanelet_network.specs.declared.axis.TheConstants.{MAX_STRIPS};

// The most strips of an axis.
pub(crate) const MAX_STRIPS: u64 = 64;

// How an axis is cut into strips. The first strip has no lower end, and the last no upper one.
#[derive(Clone, Copy)]
pub(crate) struct Axis {
    // Where the first strip is taken to begin, in 0.1 mm.
    pub(crate) low: i64,
    // How wide a strip is, in 0.1 mm; 0 stands for 1.
    pub(crate) side: u64,
    // The number of the last strip.
    pub(crate) last: u64,
}

// The strips that a range touches.
#[derive(Clone, Copy)]
pub(crate) struct Reach {
    pub(crate) first: u64,
    pub(crate) last: u64,
}

impl Axis {
    // About as many strips as things, of one width, from low to high.
    pub(crate) fn new(things: usize, low: i64, high: i64) -> Axis
        ensures { result.last < MAX_STRIPS }
    {
        let last = (things as u64).min(MAX_STRIPS - 1);
        Axis {
            low,
            side: high.abs_diff(low) / (last + 1),
            last,
        }
    }

    // The strip in which z lies.
    #[tactic(auto, unfolding(crate::specs::Strips::strip))]
    pub(crate) fn strip(self, z: i64) -> u64
        ensures value { result ≡ strip_of self z }
        ensures last { result ≤ self.last }
    {
        let offset = z.max(self.low).abs_diff(self.low);
        (offset / self.side.max(1)).min(self.last)
    }

    // The strips that the range from low to high touches.
    #[tactic(auto, unfolding(crate::specs::Strips::reach))]
    pub(crate) fn reach(self, low: i64, high: i64) -> Reach
        ensures { result ≡ reach_of self low high }
    {
        Reach {
            first: self.strip(low),
            last: self.strip(high),
        }
    }
}

impl Reach {
    // Whether the strip is one of those.
    #[tactic(auto, unfolding(crate::specs::Strips::is_reached))]
    pub(crate) fn is_reached(self, strip: u64) -> bool
        ensures { result ≡ is_reached_by strip self }
    {
        self.first <= strip && strip <= self.last
    }
}
