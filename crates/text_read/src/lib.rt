// A readable text of a set, taken byte by byte: one stream a line; in version 2 `version 2` stands before them.
#![tactic(auto)]

ghost use Rattle.std.specs.Prelude.{◌≡◌};
ghost use Rattle.text_read.specs.Texts.{leaves, onward, with_stream, with_version, line_ended, start_of, step_of, feed_of, close_of, begun, stepped, fed, closed, text_read};

use rules::{Set, Stream};
use text_line::{Fault, Said};
use text_tidy::Tidy;

// The first bad line of a text: its number, and what is wrong with it.
#[derive(Clone, Copy)]
pub struct BadLine {
    pub number: u64,
    pub fault: Fault,
}

// A text so far, of which no line is bad: its streams and its version, the number of its line, and the line.
#[derive(Clone, Copy)]
pub struct Draft {
    pub set: Set,
    pub number: u64,
    pub tidy: Tidy,
}

impl Draft {
    // A text of which no byte has come.
    #[tactic(auto, unfolding(crate::specs::Texts::start_of))]
    pub fn start() -> Draft
        ensures { result ≡ start_of }
    {
        Draft {
            set: stream_valid::empty_set(),
            number: 1,
            tidy: text_tidy::start(),
        }
    }

    // On with the next line. The lines are counted up to 2^64 - 1.
    #[tactic(auto, unfolding(crate::specs::Texts::onward, crate::specs::Texts::following))]
    fn go_on(&mut self)
        ensures { self.new ≡ onward self.old.set self.old.number }
    {
        self.number = self.number.saturating_add(1);
        self.tidy = text_tidy::start();
    }

    // This line is the first bad one.
    fn bad(&self, fault: Fault) -> BadLine
        ensures { (result.number ≡ self.now.number) × (result.fault ≡ fault) }
    {
        BadLine {
            number: self.number,
            fault,
        }
    }

    // One stream more. Here and below a draft is changed in place: one that is handed over and back is copied, its set too.
    #[tactic(auto, unfolding(crate::specs::Texts::with_stream, crate::specs::Texts::leaves, text_line::specs::Lines::leads))]
    fn add(&mut self, s: Stream) -> Result<(), BadLine>
        ensures { leaves result self.new ≡ with_stream self.old.set self.old.number s }
    {
        let k = self.set.count;
        if 16 <= k {
            return Err(self.bad(Fault::ManyStreams));
        }
        self.set.streams[k] = s;
        self.set.count = k + 1;
        self.go_on();
        Ok(())
    }

    // `version 2`: nothing but empty lines may stand before it.
    #[tactic(auto, unfolding(crate::specs::Texts::with_version, crate::specs::Texts::leaves, text_line::specs::Lines::leads))]
    fn say_version(&mut self) -> Result<(), BadLine>
        ensures { leaves result self.new ≡ with_version self.old.set self.old.number }
    {
        if self.set.version == 1 && self.set.count == 0 {
            self.set.version = 2;
            self.go_on();
            Ok(())
        } else {
            Err(self.bad(Fault::LateVersion))
        }
    }

    // The line ends here.
    #[tactic(auto, unfolding(crate::specs::Texts::line_ended, crate::specs::Texts::leaves, text_line::specs::Lines::leads))]
    fn end_line(&mut self) -> Result<(), BadLine>
        ensures { leaves result self.new ≡ line_ended self.old }
    {
        match text_line::judge(self.tidy.row, self.set.version) {
            Ok(Some(Said::Stream(s))) => self.add(s),
            Ok(Some(Said::Version)) => self.say_version(),
            Ok(None) => {
                self.go_on();
                Ok(())
            }
            Err(fault) => Err(self.bad(fault)),
        }
    }

    // One byte more.
    #[tactic(auto, unfolding(crate::specs::Texts::step_of, crate::specs::Texts::leaves, text_line::specs::Lines::leads))]
    fn take(&mut self, b: u8) -> Result<(), BadLine>
        ensures { leaves result self.new ≡ step_of self.old b }
    {
        if b == b'\n' {
            return self.end_line();
        }
        self.tidy = text_tidy::keep(self.tidy, b);
        Ok(())
    }

    // A text after one more byte.
    #[tactic(auto, unfolding(crate::specs::Texts::leaves, text_line::specs::Lines::leads))]
    pub fn step(self, b: u8) -> Result<Draft, BadLine>
        ensures { result ≡ step_of self b }
    {
        let mut next = self;
        next.take(b)?;
        Ok(next)
    }

    // A text after a piece of its bytes.
    pub fn feed(self, piece: &[u8]) -> Result<Draft, BadLine>
        ensures { result ≡ feed_of self piece.now }
    {
        let mut next = self;
        for b in piece {
            next.take(*b)?;
        }
        Ok(next)
    }

    // The text ends here: its last line counts, with or without a newline.
    #[tactic(auto, unfolding(crate::specs::Texts::close_of, text_line::specs::Lines::leads))]
    pub fn close(self) -> Result<Set, BadLine>
        ensures { result ≡ close_of self }
    {
        let last = self.step(b'\n')?;
        Ok(last.set)
    }
}

// A text as far as it has come, or its first bad line: behind that nothing counts. These take what the ones above left.
pub type Text = Result<Draft, BadLine>;

// A text of which no byte has come.
pub fn start() -> Text
    ensures { result ≡ begun }
{
    Ok(Draft::start())
}

// A text after one more byte.
#[tactic(auto, unfolding(crate::specs::Texts::stepped, text_line::specs::Lines::leads))]
pub fn step(text: Text, b: u8) -> Text
    ensures { result ≡ stepped text b }
{
    text?.step(b)
}

// A text after a piece of its bytes.
#[tactic(auto, unfolding(crate::specs::Texts::fed, text_line::specs::Lines::leads))]
pub fn feed(text: Text, piece: &[u8]) -> Text
    ensures { result ≡ fed text piece.now }
{
    text?.feed(piece)
}

// The text ends here: its set, or its first bad line.
#[tactic(auto, unfolding(crate::specs::Texts::closed, text_line::specs::Lines::leads))]
pub fn close(text: Text) -> Result<Set, BadLine>
    ensures { result ≡ closed text }
{
    text?.close()
}

// A whole text: its set, or its first bad line.
pub fn read(bytes: &[u8]) -> Result<Set, BadLine>
    ensures { result ≡ text_read bytes.now }
{
    Draft::start().feed(bytes)?.close()
}
