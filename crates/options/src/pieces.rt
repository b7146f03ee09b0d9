// Texts cut at a separator.
ghost use Rattle.std.specs.Prelude.{◌≡◌, ◌<◌, ◌==◌, [], ◌∷◌, length, IfSome};
ghost use Rattle.std.specs.List.{slice_split};
ghost use Rattle.std.specs.Option.{option_map_or};

use dotted::pieces::first_piece;

// What stands before the first separator, and what stands behind it; all of the text, and nothing, where there is none.
pub(crate) fn cut(text: &[u8], separator: u8) -> (&[u8], Option<&[u8]>)
    ensures parts { slice_split (λ byte. byte == separator) text.now
        ≡ result.0.now ∷ option_map_or (λ behind. slice_split (λ byte. byte == separator) behind.now) result.1 [] }
    ensures shorter { IfSome result.1 (λ behind. length behind.now < length text.now) }
{
    let front = first_piece(text, separator);
    (front, text.get(front.len() + 1..))
}
