// How many searches may be asked for, and how fast they went.
ghost use Rattle.std.specs.Prelude.{◌≡◌};
ghost use Rattle.search_speed.specs.Figures.{allowed, per_second};

// The most searches that may be asked for.
const MOST: u32 = 1_000_000;

const NANOSECONDS: u128 = 1_000_000_000;

pub fn allowed(times: u32) -> Option<u32>
    ensures { result ≡ allowed times }
{
    (1..=MOST).contains(&times).then_some(times)
}

pub fn per_second(times: u32, nanoseconds: u128) -> u128
    ensures { result ≡ per_second times nanoseconds }
{
    times as u128 * NANOSECONDS / nanoseconds.max(1)
}
