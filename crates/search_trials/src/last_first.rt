ghost use Rattle.std.specs.Prelude.{◌≡◌, length};
ghost use Rattle.search_trials.specs.LastFirst.{is_before, no_later};

use rulebook_order::VectorOrder;

// Whether `x` has the smaller number at the last place at which the two differ.
fn is_before(x: &[u64], y: &[u64]) -> bool
    ensures { result ≡ is_before x.now y.now }
{
    match x {
        [] => false,
        [a, xs @ ..] => match y {
            [] => false,
            [b, ys @ ..] => is_before(xs, ys) || (xs == ys && a < b),
        },
    }
}

/// An order that compares the last number first, then the one before it, and so on.
#[derive(Drop)]
pub struct LastFirst {
    pub width: usize,
}

impl VectorOrder for LastFirst {
    ghost use Rattle.search_trials.specs.LastFirst.{no_later-laws};

    ghost rules = { λ order. order.width };

    ghost no_worse = { λ _. no_later };

    ghost laws = { λ order. no_later-laws order.width };

    fn width(&self) -> usize {
        self.width
    }

    fn no_worse(&self, x: &[u64], y: &[u64]) -> bool {
        !is_before(y, x)
    }
}
