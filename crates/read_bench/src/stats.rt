//! The figures of many times.
ghost use Rattle.std.specs.Prelude.{◌≡◌, ◌≢◌, []};
ghost use Rattle.read_bench.specs.Stats.{IsLeast, IsMedian};

/// The median and the least of some times.
#[derive(Clone, Copy)]
pub(crate) struct Stats {
    pub(crate) median: u64,
    pub(crate) least: u64,
}

impl Stats {
    /// Returns the figures of the times, and sorts them. The median is the one in the middle, or the greater of the two.
    pub(crate) fn of(times: &mut [u64]) -> Stats
        requires { times.old ≢ [] }
        ensures median { IsMedian result.median times.old }
        ensures least { IsLeast result.least times.old }
    {
        times.sort_unstable();
        Stats {
            median: times[times.len() / 2],
            least: times[0],
        }
    }
}
