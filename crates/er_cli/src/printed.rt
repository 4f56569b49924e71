//! A line on standard error, by a value that only its printing makes.

ghost use Rattle.std.specs.Prelude.{◌≡◌};

/// A line that was printed on standard error.
#[derive(Drop)]
pub(crate) struct Printed {
    text: &'static str,
}

/// Prints a line. That it comes to standard error is trusted, and seen from outside.
pub(crate) fn print(rt: &impl Eprint, text: &'static str) -> Printed
    ensures { result.text.now ≡ text.now }
{
    let _ = rt.eprintln(text);
    Printed { text }
}
