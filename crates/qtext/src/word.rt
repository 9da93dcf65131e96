//! The parts of a text.
ghost use Rattle.std.specs.Prelude.{◌≡◌, ◌<◌, ◌∷◌, length, IfSome, IsNone};
ghost use Rattle.std.specs.Option.{option_map};
ghost use Rattle.qtext.specs.Words.{parts, parts_after};

/// The part before the first separator, and what stands after that separator where there is one.
pub fn first_part(text: &[u8], separator: u8) -> (&[u8], Option<&[u8]>)
    ensures parts { parts separator text.now
        ≡ result.0.now ∷ parts_after separator (option_map (λ after. after.now) result.1) }
    ensures whole { IsNone result.1 → result.0.now ≡ text.now }
    ensures shorter { IfSome result.1 (λ after. length after.now < length text.now) }
{
    match text.iter().position(|byte| *byte == separator) {
        Some(at) => (text.split_at(at).0, Some(text.split_at(at + 1).1)),
        None => (text, None),
    }
}
