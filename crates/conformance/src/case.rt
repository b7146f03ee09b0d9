// A text and its encoding, compared with what our readers and writers make of them.
ghost use Rattle.std.specs.Prelude.{◌≡◌};
ghost use Rattle.std.specs.Result.{result_err};
ghost use Rattle.der.specs.Reading.{read_der};
ghost use Rattle.conformance.specs.Differences.{refused_by, by_bytes, from_equal, from_refused, from_mark};

use crate::difference::Difference;
use crate::mark::Mark;
use codecs::{Der, Dotted, Identifier, Notation, PAGE_LIMIT, Refusal, read_der, read_dotted};

// A text, and bytes that are said to stand for the same identifier.
#[derive(Clone, Copy)]
pub struct Case<'a> {
    pub text: &'a [u8],
    pub encoding: &'a [u8],
}

impl Case<'_> {
    // Whether we agree with what the mark says of the case; else where we differ.
    pub fn compare(&self, mark: Mark) -> Result<(), Difference>
        ensures { result_err result ≡ from_mark mark self.now.text.now self.now.encoding.now }
    {
        match mark {
            Mark::Equal => self.compare_equal(),
            Mark::Large => self.compare_refused(Refusal::ArcTooLarge, Refusal::ArcTooLarge),
            Mark::Many => self.compare_refused(Refusal::ArcCount, Refusal::ArcCount),
            Mark::LargeLong => self.compare_refused(Refusal::ArcTooLarge, Refusal::Header),
            Mark::ManyLong => self.compare_refused(Refusal::ArcCount, Refusal::Header),
        }
    }

    // The text read and its encoding written, then the encoding read whole and its text written.
    fn compare_equal(&self) -> Result<(), Difference>
        ensures { result_err result ≡ from_equal self.now.text.now self.now.encoding.now }
    {
        let mut identifier = Identifier::smallest();
        read_dotted(self.text, &mut identifier).map_err(|_| Difference::TextRead)?;
        let mut page = [0; PAGE_LIMIT];
        if Der::written_on(&identifier, &mut page) != self.encoding {
            return Err(Difference::BytesWritten);
        }
        self.compare_back()
    }

    // The encoding read whole, and its text written.
    fn compare_back(&self) -> Result<(), Difference>
        ensures { result_err result ≡ by_bytes (read_der self.now.encoding.now) self.now.text.now self.now.encoding.now }
    {
        let mut identifier = Identifier::smallest();
        let taken = read_der(self.encoding, &mut identifier).map_err(|_| Difference::BytesRead)?;
        if taken != self.encoding.len() {
            return Err(Difference::BytesRead);
        }
        let mut page = [0; PAGE_LIMIT];
        if Dotted::written_on(&identifier, &mut page) != self.text {
            return Err(Difference::TextWritten);
        }
        Ok(())
    }

    // The text refused, and the encoding refused.
    fn compare_refused(&self, of_text: Refusal, of_encoding: Refusal) -> Result<(), Difference>
        ensures { result_err result ≡ from_refused of_text of_encoding self.now.text.now self.now.encoding.now }
    {
        if !is_refused::<Dotted>(self.text, of_text) {
            return Err(Difference::TextRead);
        }
        if !is_refused::<Der>(self.encoding, of_encoding) {
            return Err(Difference::BytesRead);
        }
        Ok(())
    }
}

// Whether the reading of some bytes ends with that refusal.
fn is_refused<N: Notation>(bytes: &[u8], refusal: Refusal) -> bool
    ensures { result ≡ refused_by refusal (N.reading bytes.now) }
{
    let mut identifier = Identifier::smallest();
    N::read(bytes, &mut identifier).is_err_and(|fault| fault.refusal == refusal)
}
