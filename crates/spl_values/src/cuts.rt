//! Texts, cut at a byte or at the end of a line.
ghost use Rattle.std.specs.Prelude.{◌≡◌, ◌<◌, ◌==◌, [], ◌∷◌, length, position, IfSome, IfNone, MatchOption};
ghost use Rattle.std.specs.List.{slice_split, before_first, after_first};
ghost use Rattle.std.specs.Option.{option_map_or};
ghost use Rattle.std.specs.Str.Lines.{lines, strip_carriage_return};

fn place_of(text: &[u8], at: u8) -> Option<usize>
    ensures place { result ≡ position (λ b. b == at) text.now }
    ensures within { IfSome result (λ place. place < length text.now) }
{
    text.iter().position(|byte| *byte == at)
}

/// What stands before the first such byte, and what follows it, if there is one.
pub fn cut(text: &[u8], at: u8) -> (&[u8], Option<&[u8]>)
    ensures before { result.0.now ≡ before_first (λ b. b == at) text.now }
    ensures after { IfSome result.1 (λ rest. rest.now ≡ after_first (λ b. b == at) text.now) }
    ensures none_after { IfNone result.1 (after_first (λ b. b == at) text.now ≡ []) }
    ensures split { slice_split (λ b. b == at) text.now
        ≡ result.0.now ∷ option_map_or (λ rest. slice_split (λ b. b == at) rest.now) result.1 [] }
    ensures shorter { IfSome result.1 (λ rest. length rest.now < length text.now) }
{
    match place_of(text, at) {
        Some(place) => (&text[..place], Some(&text[place + 1..])),
        None => (text, None),
    }
}

/// A line without the carriage return at its end, if it has one.
fn without_return(line: &[u8]) -> &[u8]
    ensures { result.now ≡ strip_carriage_return line.now }
{
    match line {
        [rest @ .., b'\r'] => rest,
        _ => line,
    }
}

/// The first line of a text, without its end, and what follows the line; `None` where the text has
/// no line.
pub fn first_line(text: &[u8]) -> Option<(&[u8], &[u8])>
    ensures line { MatchOption result (lines text.now ≡ []) (λ parts. lines text.now ≡ parts.0.now ∷ lines parts.1.now) }
    ensures shorter { IfSome result (λ parts. length parts.1.now < length text.now) }
{
    let (line, rest) = cut(text, b'\n');
    match rest {
        Some(rest) => Some((without_return(line), rest)),
        None => {
            if line.is_empty() {
                None
            } else {
                Some((line, &[]))
            }
        }
    }
}
