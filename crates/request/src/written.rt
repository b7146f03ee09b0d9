// What is written of a page, word by word.
ghost use Rattle.std.specs.Prelude.{◌≡◌, ◌≤◌, ◌∷◌, [], ◌++◌, length, decimal};
ghost use Rattle.oid.specs.Meaning.{arcs_of};
ghost use Rattle.oid.specs.Pages.{at_front};
ghost use Rattle.dotted.specs.Writing.{dotted_text};
ghost use Rattle.request.specs.Written.{Puts};

use dotted::decimal::write_decimal;
use oid::{Identifier, fits};

// How many bytes of a page are written, from its front on. The bytes themselves are lent beside it.
#[derive(Drop)]
pub struct Written {
    pub length: usize,
}

impl Written {
    // A word behind what is written, and a byte that ends it.
    pub(crate) fn put_word(
        &mut self,
        page: &mut [u8],
        word: &[u8],
        end: u8,
    ) -> Result<(), oid::Refusal>
        ensures { Puts (word.now ++ end ∷ []) self.old.length page.old result self.new.length page.new }
    {
        self.put_bytes(page, word)?;
        self.put_bytes(page, &[end])
    }

    // A number in decimal.
    pub(crate) fn put_number(
        &mut self,
        page: &mut [u8],
        number: u64,
        end: u8,
    ) -> Result<(), oid::Refusal>
        ensures { Puts (decimal number ++ end ∷ []) self.old.length page.old result self.new.length page.new }
    {
        self.length = write_decimal(number, page, self.length)?;
        self.put_bytes(page, &[end])
    }

    // An identifier in dotted text.
    pub(crate) fn put_identifier(
        &mut self,
        page: &mut [u8],
        identifier: &Identifier,
        end: u8,
    ) -> Result<(), oid::Refusal>
        ensures { Puts (dotted_text (arcs_of identifier.now) ++ end ∷ []) self.old.length page.old result self.new.length page.new }
    {
        self.length = dotted::write(identifier, page, self.length)?;
        self.put_bytes(page, &[end])
    }

    fn put_bytes(&mut self, page: &mut [u8], bytes: &[u8]) -> Result<(), oid::Refusal>
        ensures { Puts bytes.now self.old.length page.old result self.new.length page.new }
    {
        if !fits(page, self.length, bytes.len()) {
            return Err(oid::Refusal::PageTooShort);
        }
        put_front(&mut page[self.length..], bytes);
        self.length += bytes.len();
        Ok(())
    }
}

// Puts bytes at the front of a page that has room for them.
fn put_front(page: &mut [u8], bytes: &[u8])
    requires { length bytes.now ≤ length page.old }
    ensures { page.new ≡ at_front bytes.now page.old }
{
    page[..bytes.len()].copy_from_slice(bytes);
}
