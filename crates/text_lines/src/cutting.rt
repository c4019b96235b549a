//! The next line of a text, the parts of a line before and after a mark, and its rest after a prefix.

ghost use Rattle.std.specs.Prelude.{◌≡◌, ◌≢◌, ℕ, ◌<◌, ◌≤◌, ◌∷◌, [], length, option_map, slice_index, IfSome};
ghost use Rattle.std.specs.Prelude.{MatchOption};
ghost use Rattle.text_lines.specs.Lines.{behind, cut, lines_of};

/// The next line of a text without its newline, and what follows it; None where nothing is left.
#[tactic(auto, using(crate::proofs::Breaks::line_breaks))]
pub fn next_line(text: &[u8]) -> Option<(&[u8], &[u8])>
    ensures lines { MatchOption result (lines_of text.now ≡ [])
        (λ p. lines_of text.now ≡ p.0.now ∷ lines_of p.1.now) }
    ensures shorter { IfSome result (λ p. length p.1.now < length text.now) }
{
    if text.is_empty() {
        return None;
    }
    match cut(text, b'\n') {
        Some(parts) => Some(parts),
        None => Some(text.split_at(text.len())),
    }
}

/// The bytes before the first `mark`, and those after it; None exactly where they don't have it.
#[tactic(auto, using(crate::proofs::Cuts::cut_at, crate::proofs::Cuts::cut_none))]
pub fn cut(bytes: &[u8], mark: u8) -> Option<(&[u8], &[u8])>
    ensures { option_map (λ p. (p.0.now, p.1.now)) result ≡ cut mark bytes.now }
{
    let at = place_of(bytes, mark);
    if at == bytes.len() {
        return None;
    }
    let (front, _) = bytes.split_at(at);
    let (_, rest) = bytes.split_at(at + 1);
    Some((front, rest))
}

// The place of the first `mark`, or the length where there is none.
fn place_of(bytes: &[u8], mark: u8) -> usize
    ensures within { result ≤ length bytes.now }
    ensures before { (k : ℕ) → k < result → slice_index bytes.now k ≢ mark }
    ensures found { result < length bytes.now → slice_index bytes.now result ≡ mark }
{
    for (i, byte) in bytes.iter().enumerate() {
        if *byte == mark {
            return i;
        }
    }
    bytes.len()
}

/// The rest of a line after a prefix; None exactly where the line doesn't begin with it.
#[tactic(auto, unfolding(crate::specs::Lines::behind))]
pub fn behind<'a>(line: &'a [u8], front: &[u8]) -> Option<&'a [u8]>
    ensures { option_map (λ r. r.now) result ≡ behind front.now line.now }
{
    if line.len() < front.len() {
        return None;
    }
    let (head, rest) = line.split_at(front.len());
    if head == front { Some(rest) } else { None }
}
