//! Smoothing: a new value moves the smoothed one by a part of the way, or replaces it.
// The four numbers are single parameters, in this order, as the source's calls of `ema(win, a, x, &mut y)`
// and `ema_rel(a, floor, x, &mut y)` have them; y comes by value, and its new value is the answer.
ghost use Rattle.std.specs.Prelude.{◌≡◌};
ghost use Rattle.figures.specs.Smoothing.{ema, ema_rel};

/// The smoothed value after x, y before it: x where it is further than win from y, else the part a of
/// the way from y to x.
#[tactic(auto, unfolding(crate::specs::Smoothing::ema))]
pub fn ema(win: f32, a: f32, x: f32, y: f32) -> f32
    ensures { result ≡ ema win a x y }
{
    let d = x - y;
    if numbers::abs(d) > win {
        return x;
    }
    y + a * d
}

/// ema with a twentieth of the largest of |x|, |y| and floor as win.
#[tactic(auto, unfolding(crate::specs::Smoothing::ema_rel))]
pub fn ema_rel(a: f32, floor: f32, x: f32, y: f32) -> f32
    ensures { result ≡ ema_rel a floor x y }
{
    let m = numbers::max(numbers::max(numbers::abs(x), numbers::abs(y)), floor);
    ema(0.05 * m, a, x, y)
}
