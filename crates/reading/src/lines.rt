ghost use Rattle.std.specs.Prelude.{◌≡◌, ◌<◌, length, IfSome, IsNone, MatchOption, ◌↔◌, [], ◌∷◌};
ghost use Rattle.std.specs.Prelude.{◌==◌};
ghost use Rattle.std.specs.List.{position};
ghost use Rattle.std.specs.Str.Lines.{strip_carriage_return};
ghost use Rattle.reading.specs.Lines.{is_feed, first_line, after_line, lines_of};

fn find_feed(bytes: &[u8]) -> Option<usize>
    ensures { result ≡ position is_feed bytes.now }
{
    bytes.iter().position(|b| *b == b'\n')
}

// The bytes without the carriage return at their end.
fn without_return(line: &[u8]) -> &[u8]
    ensures { result.now ≡ strip_carriage_return line.now }
{
    match line {
        [front @ .., b'\r'] => front,
        _ => line,
    }
}

#[tactic(auto, using(crate::proofs::Places::line_at, crate::proofs::Places::rest_at, crate::proofs::Places::line_all, crate::proofs::Places::rest_all))]
fn split_at_feed(bytes: &[u8]) -> (&[u8], &[u8])
    ensures line { result.0.now ≡ first_line bytes.now }
    ensures rest { result.1.now ≡ after_line bytes.now }
{
    match find_feed(bytes) {
        Some(at) => (without_return(&bytes[..at]), &bytes[at + 1..]),
        None => (bytes, &[]),
    }
}

/// The first line without its end, and the bytes after it. None where there are no bytes.
#[tactic(auto, using(crate::proofs::LineLaws::line_laws))]
pub fn split_line(bytes: &[u8]) -> Option<(&[u8], &[u8])>
    ensures none { IsNone result ↔ (length bytes.now ≡ 0) }
    ensures line { IfSome result (λ x. x.0.now ≡ first_line bytes.now) }
    ensures rest { IfSome result (λ x. x.1.now ≡ after_line bytes.now) }

    // The lines are this one and those of the rest.
    ensures lines { MatchOption result (lines_of bytes.now ≡ [])
        (λ x. lines_of bytes.now ≡ first_line bytes.now ∷ lines_of x.1.now) }
    ensures shorter { IfSome result (λ x. length x.1.now < length bytes.now) }
{
    if bytes.is_empty() {
        return None;
    }
    Some(split_at_feed(bytes))
}
