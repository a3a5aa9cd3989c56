// The clock ("The clock"): a 32-bit counter that rolls over, and the block's own clock of 64 bits, which does not.
#![tactic(auto)]

ghost use Rattle.std.specs.Prelude.{◌≡◌, ◌≤◌};
ghost use Rattle.rules.specs.Clock.{elapsed_of, last_tick};
ghost use Rattle.clock.specs.Advance.{advance_of, advanced_in};

// "Elapsed 2^31 or more means that the counter went back"
const HALF_TURN: u32 = 1 << 31;

// "may reach 2^40, no further"
pub const LAST_TICK: u64 = 1 << 40;

// Why the clock may not move, the test that fails: 5 or 6.
#[derive(Clone, Copy)]
pub enum ClockRefusal {
    CounterWentBack,
    ClockFull,
}

// Elapsed ticks between two readings; right at a rollover, where comparing raw readings is not.
fn elapsed(reading: u32, last: u32) -> u32
    ensures { result ≡ elapsed_of reading last }
{
    reading.wrapping_sub(last)
}

// The clock after a call that carries this reading, or why there is none: tests 5 and 6. The clock is that of a whole block.
pub fn advance(clock: u64, last: u32, reading: u32) -> Result<u64, ClockRefusal>
    requires { clock ≤ last_tick }
    ensures { advanced_in result ≡ advance_of clock last reading }
{
    let ticks = elapsed(reading, last);
    if HALF_TURN <= ticks {
        return Err(ClockRefusal::CounterWentBack);
    }
    let time = clock + ticks as u64;
    if LAST_TICK < time {
        return Err(ClockRefusal::ClockFull);
    }
    Ok(time)
}
