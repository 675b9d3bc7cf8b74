ghost use Rattle.std.specs.Prelude.{◌≡◌};
ghost use Rattle.violation_measures.specs.Measured.{measured_at};

// What is measured at a place.
pub fn measured_at(values: &[i64], place: usize) -> i64
    ensures { result ≡ measured_at values.now place }
{
    if place < values.len() {
        values[place]
    } else {
        0
    }
}
