//! The least of some numbers.

ghost use Rattle.std.specs.Prelude.{◌≡◌, ◌+◌, ◌<◌, ◌^◌, length};
ghost use Rattle.er_pieces.specs.steps.Steps.{lesser};
ghost use Rattle.er_reasons.specs.Numbers.{least_from};

/// Of tests with the numbers from one on, the least number of one that passes.
pub(crate) fn least_from(first: u32, tests: &[bool]) -> Option<u32>
    requires { first + length tests.now < 2 ^ 32 }
    ensures { result ≡ least_from first tests.now }
{
    for n in 0..tests.len() {
        if tests[n] {
            return Some(first + n as u32);
        }
    }
    None
}

/// The lesser of two numbers, where there are two.
pub(crate) fn lesser(a: Option<u32>, b: Option<u32>) -> Option<u32>
    ensures { result ≡ lesser a b }
{
    let Some(n) = a else {
        return b;
    };
    match b {
        Some(m) => { if m < n { Some(m) } else { Some(n) } }
        None => Some(n),
    }
}
