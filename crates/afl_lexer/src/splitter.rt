//! Cutting a script into statements, byte by byte.
ghost use Rattle.std.specs.Prelude.{◌≡◌, ◌≢◌, ℕ, ◌<◌, ◌≤◌, ◌^◌, ◌==◌, ◌&&◌, false, List, [], ◌∷◌, ◌++◌, length, IfOk};
ghost use Rattle.afl_lexer.specs.Split.{next_place, is_outside, is_white, last_piece, statements, closed_statements};
ghost use Rattle.afl_lexer.specs.Inner.Standing.{StandsAfter, Shows, bytes_read, step_of, step_at, told};
ghost use Rattle.afl_lexer.specs.Inner.Standing.{keeps_blank, may_end_blank, reading, longer, ended, step_there};

use cell_values::Memory;
use std::alloc::Global;
use std::marker::Model;

/// How many bytes a statement may have.
const LIMIT: u64 = 1_048_576;

/// What a byte, or the script's end, brought.
#[derive(Clone, Copy)]
pub enum SplitStep {
    /// It ended no piece.
    More,
    /// It ended a piece of white space and comments alone.
    Blank,
    /// It ended a statement.
    Piece,
    /// It ended a piece of more than 1,048,576 bytes.
    TooLong,
}

/// Where a byte stands, by the bytes before it.
#[derive(Clone, Copy)]
enum Place {
    Outside,
    /// Outside, and a second `-` opens a comment.
    AfterDash,
    InText,
    /// In a text, and the byte is taken as it is.
    AfterBackslash,
    InComment,
}

impl Place {
    /// Neither in a text nor in a comment.
    fn is_outside(self) -> bool
        ensures { result ≡ is_outside self }
    {
        matches!(self, Place::Outside | Place::AfterDash)
    }

    /// The place of the byte after this one.
    fn after(self, byte: u8) -> Place
        ensures { result ≡ next_place self byte }
    {
        match (self, byte) {
            (Place::InText, b'\'') | (Place::InComment, b'\n') => Place::Outside,
            (Place::InText, b'\\') => Place::AfterBackslash,
            (Place::InText | Place::AfterBackslash, _) => Place::InText,
            (Place::InComment, _) | (Place::AfterDash, b'-') => Place::InComment,
            (_, b'\'') => Place::InText,
            (_, b'-') => Place::AfterDash,
            _ => Place::Outside,
        }
    }

    /// Whether a blank piece stays blank with this byte, if a first `-` comes to open a comment.
    fn keeps_blank(self, byte: u8) -> bool
        ensures { result ≡ keeps_blank self byte }
    {
        match self {
            Place::Outside => matches!(byte, b'\t' | b'\n' | b'\r' | b' ' | b'-'),
            Place::AfterDash => byte == b'-',
            Place::InText | Place::AfterBackslash => false,
            Place::InComment => true,
        }
    }
}

/// Cuts a script into statements, with memory for one of them. A text runs from a `'` to the next that no `\` escapes;
/// a comment runs from `--` to the line feed, or to the script's end.
pub struct Splitter {
    /// Where the next byte stands.
    place: Place,
    /// Where the piece starts, and where it ends so far.
    start: u64,
    end: u64,
    /// Its bytes, none where there are too many.
    bytes: Vec<u8>,
    /// Whether it is blank, if a `-` at its end comes to open a comment.
    is_blank: bool,
    /// Whether a `;` ended it.
    is_ended: bool,
}

impl Drop for Splitter {
    fn drop(self) {
        let Splitter {
            place: _,
            start: _,
            end: _,
            bytes: _,
            is_blank: _,
            is_ended: _,
        } = self;
    }
}

impl Model for Splitter {
    ghost use Rattle.std.specs.Prelude.{◌≤◌, ◌-◌, ◌+◌, ◌^◌, if◌then◌else◌};
    ghost use Rattle.std.specs.Vec.{vec_len, vec_capacity};
    ghost use Rattle.afl_lexer.specs.Inner.Standing.{Splitting, IsWithin};

    ghost Value = { Splitting };

    ghost view = { λ s. record { place = s.place; start = s.start; end = s.end; bytes = s.bytes.items; is_blank = s.is_blank; is_ended = s.is_ended } };

    ghost invariant = { λ s. IsWithin s.start s.end s.is_ended (vec_len s.bytes) (vec_capacity s.bytes) };
}

impl Splitter {
    /// A splitter at the start of a script, with the memory of a whole statement.
    pub fn new(alloc: Global) -> Result<Splitter, Memory>
        ensures { IfOk result (StandsAfter []) }
    {
        Ok(Splitter {
            place: Place::Outside,
            start: 0,
            end: 0,
            bytes: Vec::with_capacity(alloc, LIMIT as usize)?,
            is_blank: true,
            is_ended: false,
        })
    }

    /// Takes the next byte of the script, and tells what it ended: a `;` outside texts and comments ends a piece, and
    /// the next byte begins a new one. It takes no memory.
    pub fn push(&mut self, byte: u8) -> SplitStep
        requires { bytes_read self.old < 2 ^ 63 }
        ensures stands { (script : List ℕ) → StandsAfter script self.old → StandsAfter (script ++ byte ∷ []) self.new }
        ensures step { (script : List ℕ) → StandsAfter script self.old → result ≡ step_at script byte }
        ensures shown { (script : List ℕ) → StandsAfter script self.old → result ≢ SplitStep.More → Shows self.new (last_piece script) }
        ensures statements { (script : List ℕ) → StandsAfter script self.old
            → closed_statements (script ++ byte ∷ []) ≡ closed_statements script ++ told result self.new }
    {
        self.begin();
        if self.is_end(byte) {
            return self.end();
        }
        self.read(byte);
        SplitStep::More
    }

    /// Tells what the last piece is, which the script's end ends: `Blank` also where it has no bytes.
    pub fn finish(&mut self) -> SplitStep
        ensures stands { (script : List ℕ) → StandsAfter script self.old → StandsAfter script self.new }
        ensures step { (script : List ℕ) → StandsAfter script self.old → result ≡ step_of (last_piece script) }
        ensures shown { (script : List ℕ) → StandsAfter script self.old → Shows self.new (last_piece script) }
        ensures statements { (script : List ℕ) → StandsAfter script self.old → statements script ≡ closed_statements script ++ told result self.new }
    {
        self.begin();
        self.step()
    }

    /// Where in the script the piece that was told last starts and ends, in bytes, and its bytes: none where it is too
    /// long. After `More` it is the piece as far as it was read.
    pub fn piece(&self) -> (u64, u64, &[u8])
        ensures start { result.0 ≡ self.now.start }
        ensures end { result.1 ≡ self.now.end }
        ensures bytes { result.2.now ≡ self.now.bytes }
        ensures limit { length self.now.bytes ≤ 1048576 }
    {
        (self.start, self.end, self.bytes.as_slice())
    }

    /// Leaves a piece that a `;` ended for the one behind it.
    fn begin(&mut self)
        ensures { self.new ≡ reading self.old }
    {
        if self.is_ended {
            self.end += 1;
            self.start = self.end;
            self.bytes.clear();
            self.is_blank = true;
            self.is_ended = false;
        }
    }

    /// Whether this byte ends the piece.
    fn is_end(&self, byte: u8) -> bool
        ensures { result ≡ (byte == 59 && is_outside self.now.place) }
    {
        byte == b';' && self.place.is_outside()
    }

    /// Ends the piece at a `;`.
    fn end(&mut self) -> SplitStep
        requires room { self.old.end < 2 ^ 63 }
        requires running { self.old.is_ended ≡ false }
        ensures step { result ≡ step_there self.old }
        ensures ended { self.new ≡ ended self.old }
    {
        let step = self.step();
        self.place = Place::Outside;
        self.is_ended = true;
        step
    }

    /// Takes a byte into the piece.
    fn read(&mut self, byte: u8)
        requires room { self.old.end < 2 ^ 63 }
        requires running { self.old.is_ended ≡ false }
        ensures { self.new ≡ longer self.old byte }
    {
        self.is_blank = self.is_blank && self.place.keeps_blank(byte);
        self.place = self.place.after(byte);
        self.end += 1;
        if self.end - self.start > LIMIT {
            self.bytes.clear();
        } else {
            // There is room, so it takes no memory.
            let _ = self.bytes.push(byte);
        }
    }

    /// What is told of the piece if it ends here.
    fn step(&self) -> SplitStep
        ensures { result ≡ step_there self.now }
    {
        if self.end - self.start > LIMIT {
            SplitStep::TooLong
        } else if self.is_blank && self.place != Place::AfterDash {
            SplitStep::Blank
        } else {
            SplitStep::Piece
        }
    }
}
