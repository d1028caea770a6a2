// One call for tests: the coordinate of a receiver reading, for every pattern of 32 bits.
#![tactic(auto)]

ghost use Rattle.reading_probe.specs.Probed.{Probed};

// The coordinate of a pattern's reading, counted from the grid's south-west corner, or 65,536 where it is not finite.
#[unsafe(no_mangle)]
pub extern "C" fn probe_coordinate(bits: u32) -> u32
    ensures { Probed bits result }
{
    let x = readings::number(bits);
    if readings::is_finite(x) {
        return u32::from(readings::coordinate(x));
    }
    65536
}
