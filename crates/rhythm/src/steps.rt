// The arithmetic of steps, bars, gains and lengths. Steps and bars are worked out exactly and stop
// at 2^32 - 1; only a rotated step keeps its low 32 bits instead.
ghost use Rattle.std.specs.Prelude.{◌≡◌, ◌+◌, ◌*◌, ◌^◌, ◌<◌, ◌≤◌, min, pos, ◌+ℤ◌};
ghost use Rattle.numbers.specs.Signs.{with_sign};
ghost use Rattle.rhythm.specs.Values.{most_step, total_steps, later_step, stretched_by, remainder, rotated_step, mirrored_step, snapped_step, scaled_gain, gated_len, bars_for};

// a + b bars.
pub fn sum_bars(a: u32, b: u32) -> u32
    ensures { result ≡ min (a + b) most_step }
{
    a.saturating_add(b)
}

pub fn times_bars(bars: u32, times: u32) -> u32
    ensures { result ≡ min (bars * times) most_step }
{
    bars.saturating_mul(times)
}

// The steps of a number of bars.
pub fn total(bars: u32, steps_per_bar: u32) -> u64
    ensures { result ≡ total_steps bars steps_per_bar }
{
    bars as u64 * steps_per_bar.max(1) as u64
}

// The bars that hold a number of steps, at least 1.
pub fn bars_for(steps: u32, steps_per_bar: u32) -> u32
    ensures { result ≡ bars_for steps steps_per_bar }
{
    let bar = steps_per_bar.max(1) as u64;
    let bars = (steps as u64 + (bar - 1)) / bar;
    numbers::to_u32(bars).max(1)
}

pub fn later(step: u32, off: u64) -> u32
    ensures { result ≡ later_step off step }
{
    numbers::to_u32((step as u64).saturating_add(off))
}

// A step, a len or a number of bars, scaled by num / den.
pub fn stretched(value: u32, num: u32, den: u32) -> u32
    requires { 0 < den }
    ensures { result ≡ stretched_by num den value }
{
    numbers::to_u32(value as u64 * num as u64 / den as u64)
}

// step + size, or step - size where `back` is set, round a total above 0.
fn turned(step: u32, back: bool, size: u64, total: u64) -> u64
    requires { (0 < total) × (size ≤ 2 ^ 63) }
    ensures { result ≡ remainder (pos step +ℤ with_sign back size) total }
{
    let s = step as u64;
    if !back {
        return (s + size) % total;
    }
    if size <= s {
        return (s - size) % total;
    }
    total - 1 - (size - s - 1) % total
}

pub fn rotated(step: u32, shift: i64, total: u64) -> u32
    ensures { result ≡ rotated_step shift total step }
{
    if total == 0 {
        return step;
    }
    let left = turned(step, shift < 0, shift.unsigned_abs(), total);
    (left % 0x1_0000_0000) as u32
}

pub fn mirrored(step: u32, len: u32, total: u64) -> u32
    ensures { result ≡ mirrored_step total len step }
{
    let end = step as u64 + len as u64;
    numbers::to_u32(total.saturating_sub(end))
}

pub fn snapped(step: u32, grid: u32) -> u32
    ensures { result ≡ snapped_step grid step }
{
    let g = grid.max(1) as u64;
    numbers::to_u32((step as u64 + g / 2) / g * g)
}

pub fn scaled(gain: u32, scale: f32) -> u32
    ensures { result ≡ scaled_gain scale gain }
{
    rounding::f32_word(rounding::clamp_f32(rounding::f32_of(gain) * scale, 0.0, 1.0))
}

pub fn gated(len: u32, factor: f32) -> u32
    ensures { result ≡ gated_len factor len }
{
    let rounded = rounding::round_to_u32(std::num::nearest_u32_to_f32(len) * factor);
    rounded.max(1)
}
