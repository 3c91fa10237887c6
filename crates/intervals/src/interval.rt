// Intervals, by their ends.
ghost use Rattle.std.specs.Prelude.{◌≡◌, true};
ghost use Rattle.intervals.specs.Ends.{is_interval};

// An end of an interval: numerator/(divisor·scale), with the scale of the interval.
#[derive(Clone, Copy, PartialEq, Eq, Debug)]
pub struct End {
    pub numerator: i64,
    pub divisor: u32,
}

// What lies from the lower to the upper end, both included; an end that is absent bounds nothing.
// The rules: a scale from 1 to 2^18, numerators within 2^41, divisors from 1 to 2^20, not both ends absent, the lower never above the upper.
// So two ends are compared by products within 2^61, and an end with a short fraction by products within 2^59.
#[derive(Clone, Copy, PartialEq, Eq, Debug)]
pub struct Interval {
    pub(crate) scale: u32,
    pub(crate) lower: Option<End>,
    pub(crate) upper: Option<End>,
    ghost rules: { is_interval scale lower upper ≡ true },
}
