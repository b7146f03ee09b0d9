// What a register tells of its founding.
ghost use Rattle.std.specs.Prelude.{◌≡◌, ◌≢◌, [], IfSome};
ghost use Rattle.book.specs.Founding.{founding_number};
ghost use Rattle.register.specs.Registers.{book_of, refusal_of};

use super::Register;
use book::FoundingRefusal;

impl<P, A> Register<P, A> {
    // Why the founding was refused, if it was; the book is then empty.
    pub fn refusal(&self) -> Option<FoundingRefusal>
        ensures value { result ≡ refusal_of self.now }
        ensures empty { IfSome result (λ _. book_of self.now ≡ []) }
    {
        self.refused_for
    }

    // The number of that refusal; 0 where there is none.
    pub fn tells(&self) -> u8
        ensures value { result ≡ founding_number (refusal_of self.now) }
        ensures empty { result ≢ 0 → book_of self.now ≡ [] }
    {
        self.refusal().map_or(0, FoundingRefusal::number)
    }
}
