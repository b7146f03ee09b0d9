// The lines of a roll behind its first.
ghost use Rattle.std.specs.Prelude.{◌≡◌, cond, is_ok};
ghost use Rattle.request.specs.Answers.{text_line, shown_words, child_line, last_line};
ghost use Rattle.request.specs.Limits.{least_rest};
ghost use Rattle.request.specs.Written.{Puts, PutsLine};

use crate::child::{Child, kind_word};
use crate::page::LEAST_REST;
use crate::written::Written;
use oid::{Arc, fits};

impl Written {
    // Puts a child's line behind what is written, if so much of the page remains after it that a roll can end there, and answers whether it
    // did. The line is there whole, or nothing of it is counted, and the page may have other bytes behind what is.
    pub fn put_child(&mut self, page: &mut [u8], child: &Child) -> bool
        ensures { PutsLine (child_line child.now) least_rest self.old.length page.old result self.new.length page.new }
    {
        self.put_child_line(page, child).is_ok()
    }

    // Puts the line that ends a roll: `end`, or `more` and the arc of the first child that is not written. It answers whether there was room.
    pub fn put_last(&mut self, page: &mut [u8], next: Option<Arc>) -> bool
        ensures { PutsLine (last_line next) 0 self.old.length page.old result self.new.length page.new }
    {
        self.put_last_line(page, next).is_ok()
    }

    fn put_last_line(&mut self, page: &mut [u8], next: Option<Arc>) -> Result<(), oid::Refusal>
        ensures { PutsLine (last_line next) 0 self.old.length page.old (is_ok result) self.new.length page.new }
    {
        let mut line = UnfinishedLine {
            start: self.length,
            written: self,
            finished: false,
        };
        line.written.put_ending(page, next)?;
        line.finished = true;
        Ok(())
    }

    fn put_child_line(&mut self, page: &mut [u8], child: &Child) -> Result<(), oid::Refusal>
        ensures { PutsLine (child_line child.now) least_rest self.old.length page.old (is_ok result) self.new.length page.new }
    {
        let mut line = UnfinishedLine {
            start: self.length,
            written: self,
            finished: false,
        };
        line.written.put_number(page, u64::from(child.arc), b' ')?;
        line.written.put_shown(page, child)?;
        if !fits(page, line.written.length, LEAST_REST) {
            return Err(oid::Refusal::PageTooShort);
        }
        line.finished = true;
        Ok(())
    }

    // What a roll shows of a child behind its arc.
    fn put_shown(&mut self, page: &mut [u8], child: &Child) -> Result<(), oid::Refusal>
        ensures { Puts (text_line (shown_words child.now)) self.old.length page.old result self.new.length page.new }
    {
        let kind = kind_word(child.kind);
        if !child.kind.is_authority() {
            return self.put_word(page, kind, b'\n');
        }
        self.put_word(page, kind, b' ')?;
        self.put_number(page, u64::from(child.holder), b' ')?;
        self.put_number(page, u64::from(child.quota), b'\n')
    }

    fn put_ending(&mut self, page: &mut [u8], next: Option<Arc>) -> Result<(), oid::Refusal>
        ensures { Puts (last_line next) self.old.length page.old result self.new.length page.new }
    {
        let Some(arc) = next else {
            return self.put_word(page, b"end", b'\n');
        };
        self.put_word(page, b"more", b' ')?;
        self.put_number(page, u64::from(arc), b'\n')
    }
}

// A line that is being written. What is written of it counts only once it is finished: else the length is restored when it is let go.
struct UnfinishedLine<'a> {
    written: &'a mut Written,
    start: usize,
    finished: bool,
}

impl Drop for UnfinishedLine<'_> {
    fn drop(self)
        ensures { self.exit.0.now.length ≡ cond self.entry.finished self.entry.written.now.length self.entry.start }
    {
        if !self.finished {
            self.written.length = self.start;
        }
        let UnfinishedLine {
            written: _,
            start: _,
            finished: _,
        } = self;
    }
}
