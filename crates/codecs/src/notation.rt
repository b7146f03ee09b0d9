// Notations of identifiers: what each of them reads and writes, under one trait.
ghost use Rattle.std.specs.Prelude.{◌≡◌, ℕ, ◌+◌, ◌≤◌, true, List, Ok, length, is_ok, Result};
ghost use Rattle.std.proofs.Common.{ap};
ghost use Rattle.oid.specs.Meaning.{arcs_of};
ghost use Rattle.oid.specs.Pages.{new_end, page_after};
ghost use Rattle.oid.specs.Refusals.{filled, told};
ghost use Rattle.oid.specs.Tree.{is_identifier};
ghost use Rattle.oid.specs.declared.refusal.Fault.{Fault as FaultOf};
ghost use Rattle.dotted.specs.Reading.{read_dotted};
ghost use Rattle.dotted.specs.Writing.{dotted_text};
ghost use Rattle.dotted.proofs.Theorems.{reads_back as text_reads_back};
ghost use Rattle.der.specs.Header.{taken_in as der_taken};
ghost use Rattle.der.specs.Reading.{read_der};
ghost use Rattle.der.specs.Writing.{der_bytes};
ghost use Rattle.der.proofs.Theorems.{reads_whole};
ghost use Rattle.codecs.specs.Notations.{page_limit};

use arrayvec::ArrayVec;
use dotted::TEXT_LIMIT;
use oid::{Fault, Identifier, Refusal};

// A page of this length has room for what any notation writes of an identifier.
pub const PAGE_LIMIT: usize = TEXT_LIMIT;

// A notation: a reader and a writer of identifiers, which answer each other.
pub trait Notation {
    // the arcs that the front of some bytes stands for, or the first fault
    ghost reading: { List ℕ → Result (List ℕ) FaultOf };

    // how many of the bytes stand for them
    ghost taken_in: { List ℕ → ℕ };

    // what is written of arcs
    ghost written: { List ℕ → List ℕ };

    // Reads the identifier at the front of the bytes into the caller's, and answers how many bytes it took. On a fault
    // the identifier stays as it was.
    fn read(bytes: &[u8], identifier: &mut Identifier) -> Result<usize, Fault>
        ensures value { result ≡ told (taken_in bytes.now) (reading bytes.now) }
        ensures after { arcs_of identifier.new ≡ filled (reading bytes.now) (arcs_of identifier.old) };

    // Writes the identifier into the page from a place onwards, and answers the new end. Where too little of the page
    // is left, or the place lies past its end, it refuses, and the page is untouched.
    fn write(identifier: &Identifier, page: &mut [u8], place: usize) -> Result<usize, Refusal>
        ensures value { result ≡ new_end place (written (arcs_of identifier.now)) page.old }
        ensures after { page.new ≡ page_after place (written (arcs_of identifier.now)) page.old }
        ensures succeeds { place + page_limit ≤ length page.old → is_ok result ≡ true };

    // what is written of an identifier is read as it, with nothing left over
    ghost reads_back: { (arcs : List ℕ) → is_identifier arcs ≡ true → (reading (written arcs) ≡ Ok arcs) × (told (taken_in (written arcs)) (reading (written arcs)) ≡ Ok (length (written arcs))) };

    // What is written of the identifier, on a page that is lent.
    final fn written_on<'a>(identifier: &Identifier, page: &'a mut [u8; PAGE_LIMIT]) -> &'a [u8]
        ensures value { result.now ≡ written (arcs_of identifier.now) }
        ensures within { length result.now ≤ page_limit }
    {
        let end = Self::write(identifier, page, 0).unwrap();
        &page[0..end]
    }

    // What is written of the identifier, on a page of its own.
    final fn page(identifier: &Identifier) -> ArrayVec<u8, PAGE_LIMIT>
        ensures { result.items ≡ written (arcs_of identifier.now) }
    {
        let mut page = [0; PAGE_LIMIT];
        let bytes = Self::written_on(identifier, &mut page);
        ArrayVec::try_from(bytes).unwrap()
    }
}

// Decimal arcs with dots between them.
pub struct Dotted;

impl Notation for Dotted {
    ghost reading = { read_dotted };

    ghost taken_in = { length };

    ghost written = { dotted_text };

    ghost reads_back = { λ arcs rule. (text_reads_back arcs rule, ap (told (length (dotted_text arcs))) (text_reads_back arcs rule)) };

    fn read(bytes: &[u8], identifier: &mut Identifier) -> Result<usize, Fault> {
        dotted::read(bytes, identifier)?;
        Ok(bytes.len())
    }

    fn write(identifier: &Identifier, page: &mut [u8], place: usize) -> Result<usize, Refusal> {
        dotted::write(identifier, page, place)
    }
}

// The bytes of X.690.
pub struct Der;

impl Notation for Der {
    ghost reading = { read_der };

    ghost taken_in = { der_taken };

    ghost written = { der_bytes };

    ghost reads_back = { reads_whole };

    fn read(bytes: &[u8], identifier: &mut Identifier) -> Result<usize, Fault> {
        der::read(bytes, identifier)
    }

    fn write(identifier: &Identifier, page: &mut [u8], place: usize) -> Result<usize, Refusal> {
        der::write(identifier, page, place)
    }
}
