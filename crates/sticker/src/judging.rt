// What a line holds, or why it holds nothing.
ghost use Rattle.std.specs.Prelude.{◌≡◌, ℕ, ◌≤◌, List, length};
ghost use Rattle.input.specs.Limits.{line_limit};
ghost use Rattle.input.specs.Lines.{Took};
ghost use Rattle.sticker.specs.Answers.{said, on_text, on_content, on_digits, on_line};

use crate::found::Found;
use crate::trouble::Trouble;
use codecs::{Identifier, read_der, read_dotted};
use input::{Line, MOST_PAIRS, content_in};

// What a chip's line begins with.
const CHIP_WORD: &[u8; 4] = b"der ";

// Reads a line that has ended.
pub fn judge(line: &Line) -> Result<Found, Trouble>
    ensures { (bytes : List ℕ) → Took line.now bytes → said result ≡ on_line bytes }
{
    let Some(bytes) = line.whole() else {
        return Err(Trouble::Long);
    };
    match bytes.strip_prefix(CHIP_WORD) {
        Some(digits) => judge_digits(digits),
        None => judge_text(bytes),
    }
}

// Reads a sticker's text.
fn judge_text(text: &[u8]) -> Result<Found, Trouble>
    ensures { said result ≡ on_text text.now }
{
    let mut identifier = Identifier::smallest();
    read_dotted(text, &mut identifier)?;
    Ok(Found::Sticker(identifier))
}

// Reads the digits of a chip's line.
fn judge_digits(digits: &[u8]) -> Result<Found, Trouble>
    requires { length digits.now ≤ line_limit }
    ensures { said result ≡ on_digits digits.now }
{
    let mut page = [0; MOST_PAIRS];
    match content_in(digits, &mut page) {
        Ok(content) => judge_content(content),
        Err(unpaired) => Err(Trouble::NotHex {
            offset: CHIP_WORD.len() + unpaired.offset,
        }),
    }
}

// Reads a chip's content.
fn judge_content(content: &[u8]) -> Result<Found, Trouble>
    ensures { said result ≡ on_content content.now }
{
    let mut identifier = Identifier::smallest();
    let taken = read_der(content, &mut identifier)?;
    Ok(Found::Chip {
        identifier,
        taken,
        left: content.len() - taken,
    })
}
