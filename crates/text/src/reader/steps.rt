// One line after another.
ghost use Rattle.std.specs.Prelude.{◌≡◌, [], MatchResult, ◌≢◌};
ghost use Rattle.text.specs.Fields.{Lacks};
ghost use Rattle.text.specs.Lines.{Fresh, rest, Cut, WrongEnd};

use crate::fields::place_of;
use crate::line::Line;
use crate::reader::Reader;
use fault::Fault;

impl<'a> Reader<'a> {
    // A text of which nothing is read yet. Constant time.
    pub fn new(text: &'a [u8]) -> Reader<'a>
        ensures { Fresh text.now result }
    {
        Reader {
            text,
            at: 0,
            line: 0,
        }
    }

    // The fault of a text that goes wrong at its end: no more lines, or more than are wanted. Constant time.
    fn wrong_end(&self) -> Fault
        ensures { WrongEnd self.now result }
    {
        let line = self.line + 1;
        Fault::TextEnd { line }
    }

    // The next line, without its byte 10. One step a byte of it; where there is none, nothing is read.
    pub fn line(&mut self) -> Result<Line<'a>, Fault>
        ensures { MatchResult result
            (λ l. Cut self.old self.new l)
            (λ f. WrongEnd self.old f × Lacks 10 (rest self.old) × (self.new ≡ self.old)) }
    {
        let left = &self.text[self.at..];
        let Some(n) = place_of(left, b'\n') else {
            return Err(self.wrong_end());
        };
        let start = self.at;
        self.at += n + 1;
        self.line += 1;
        Ok(Line {
            rest: Some(&left[..n]),
            start,
            number: self.line,
        })
    }

    // The end of the text: no byte may be left. Constant time.
    pub fn end(&self) -> Result<(), Fault>
        ensures { MatchResult result
            (λ _. rest self.now ≡ [])
            (λ f. WrongEnd self.now f × (rest self.now ≢ [])) }
    {
        if self.at < self.text.len() {
            Err(self.wrong_end())
        } else {
            Ok(())
        }
    }
}
