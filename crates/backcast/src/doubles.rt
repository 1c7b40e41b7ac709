// Questions to one double.
ghost use Rattle.std.specs.Prelude.{◌≡◌, true};
ghost use Rattle.backcast.specs.Doubles.{is_number};
ghost use Rattle.backcast.specs.Answers.{is_quantity, whole_part};

// Neither an infinity nor not-a-number. Not std's is_finite: it subtracts x from itself, and of an infinity that raises the processor's invalid
// exception, by which a caller that has unmasked it would be killed. These comparisons raise none (docs/DECISIONS.md, 218).
pub fn is_number(x: f64) -> bool
    ensures { result ≡ is_number x }
{
    let infinity = 1.0 / 0.0;
    (-infinity < x) & (x < infinity)
}

// A number from 0 to 10^9.
pub fn is_quantity(x: f64) -> bool
    ensures { result ≡ is_quantity x }
{
    (0.0 <= x) & (x <= 1000000000.0)
}

// The greatest whole number not above x, by halving what it can be. No iterator halves, and std's cast of a double goes by its bits, which would be
// one more thing to believe (docs/DECISIONS.md, 117).
pub fn whole_part(x: f64) -> u64
    requires { is_quantity x ≡ true }
    ensures { result ≡ whole_part x }
{
    let mut low: u32 = 0;
    let mut high: u32 = 1000000000;
    while low < high {
        let middle = high - (high - low) / 2;
        if f64::from(middle) <= x {
            low = middle;
        } else {
            high = middle - 1;
        }
    }
    u64::from(low)
}
