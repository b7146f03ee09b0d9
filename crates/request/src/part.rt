// The parts of a line that its spaces leave.
ghost use Rattle.std.specs.Prelude.{◌≡◌, ◌+◌, ◌≤◌, length, nat_eq, IfSome};
ghost use Rattle.std.specs.Iterator.{YieldsFirstBy};
ghost use Rattle.std.specs.Option.{option_map};
ghost use Rattle.request.specs.Parts.{part_of, parts_left, FillsNext};

use dotted::pieces::first_piece;

// The byte between parts.
pub const SPACE: u8 = b' ';

// A part of a line, and where in the line it begins.
#[derive(Clone, Copy)]
pub struct Part<'a> {
    pub text: &'a [u8],
    pub offset: usize,
}

// The parts of a line from a place on. Behind the last one the place lies past the line's end.
#[derive(Drop)]
pub struct Parts<'a> {
    pub line: &'a [u8],
    pub place: usize,
}

impl<'a> Parts<'a> {
    // The next part, if one is left.
    pub fn next_part(&mut self) -> Option<Part<'a>>
        ensures yields { YieldsFirstBy part_of parts_left self.old result self.new }
        ensures within { IfSome result (λ part. part.offset + length part.text.now ≤ length self.old.line.now) }
        ensures same_line { self.new.line ≡ self.old.line }
    {
        let text = first_piece(self.line.get(self.place..)?, SPACE);
        let offset = self.place;
        self.place += text.len() + 1;
        Some(Part { text, offset })
    }

    // The next part, if one is left and it is not empty.
    #[tactic(auto, unfolding(crate::specs::Fields::in_form))]
    pub(crate) fn filled(&mut self) -> Option<Part<'a>>
        ensures { FillsNext (parts_left self.old) (option_map part_of result) (parts_left self.new) }
    {
        let part = self.next_part()?;
        (!part.text.is_empty()).then_some(part)
    }

    // Whether no part is left.
    pub fn is_done(&self) -> bool
        ensures { result ≡ nat_eq (length (parts_left self.now)) 0 }
    {
        self.place > self.line.len()
    }
}
