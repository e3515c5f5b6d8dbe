//! A reader of requests.

ghost use Rattle.std.specs.Prelude.{◌≡◌, ◌≢◌, ℕ, ◌<◌, List, [], ◌++◌, length, IfOk, IfErr, true, false};
ghost use Rattle.am_resp_source.specs.declared.stage.Stage.TheVariants.{Count, Length, Inside, AfterCr, Failed};

use crate::heard::{Heard, HeardWord, HeardWords, OwnBytes};
use crate::line::Line;
use crate::stage::Stage;
use am_resp_text::{Gap, MAX_WORD_BYTES, MAX_WORDS, read_byte};
use std::alloc::Global;
use std::mem;

/// What came of a request.
#[derive(Drop)]
pub struct RequestReader {
    alloc: Global,
    // The most bytes of a word that is kept.
    most: u64,
    stage: Stage,
    // What came of a count line that isn't whole.
    line: Line,
    // How many words are due, the one under way counted.
    due: u64,
    // How many bytes the word under way has.
    len: u64,
    // Those that came, if the word is kept.
    word: OwnBytes,
    // The words before it.
    words: HeardWords,
    // Memory was refused, and no words are kept.
    is_refused: bool,
}

impl RequestReader {
    ghost use Rattle.am_resp_source.specs.Progress.{most_kept, CameSoFar, HasHeard, HasFailed, IsHeardAs};
    ghost use Rattle.am_resp_source.specs.Progress.{CameSoFarAt, IsOpenAt, UsedFront, HasStopped};
    ghost use Rattle.am_resp_source.specs.Progress.{KeepsMore, KeepsWhole};

    /// A reader to which nothing came. Of words that have more bytes than the most their length alone is kept.
    pub fn new(alloc: Global, most: u64) -> Self
        ensures come { CameSoFar result [] }
        ensures most { most_kept result ≡ most }
    {
        RequestReader {
            alloc,
            most,
            stage: Stage::Count,
            line: Line::new(),
            due: 0,
            len: 0,
            word: OwnBytes::new(alloc),
            words: HeardWords::new(alloc),
            is_refused: false,
        }
    }

    // How many words the request has.
    fn take_count<'p>(&mut self, piece: &'p [u8]) -> Result<&'p [u8], Gap>
        requires stage { self.old.stage ≡ Count }
        requires begun { (came : List ℕ) × CameSoFar self.old came }
        ensures less { IfOk result (λ rest. length rest.now < length piece.now) }
        ensures most { self.new.most ≡ self.old.most }
        ensures going { self.new.stage ≢ Failed }
        ensures taken { IfOk result (λ rest. (came : List ℕ) →
            CameSoFar self.old came → UsedFront came piece.now rest.now self.new) }
        ensures stopped { IfErr result (λ gap. (came : List ℕ) →
            CameSoFar self.old came → HasStopped came piece.now gap self.new) }
    {
        let (count, rest) = self.line.read_count(piece, b'*', MAX_WORDS)?;
        self.due = count;
        self.stage = Stage::Length;
        Ok(rest)
    }

    // How long the next word is.
    fn take_length<'p>(&mut self, piece: &'p [u8]) -> Result<&'p [u8], Gap>
        requires stage { self.old.stage ≡ Length }
        requires begun { (came : List ℕ) × CameSoFar self.old came }
        ensures less { IfOk result (λ rest. length rest.now < length piece.now) }
        ensures most { self.new.most ≡ self.old.most }
        ensures going { self.new.stage ≢ Failed }
        ensures taken { IfOk result (λ rest. (came : List ℕ) →
            CameSoFar self.old came → UsedFront came piece.now rest.now self.new) }
        ensures stopped { IfErr result (λ gap. (came : List ℕ) →
            CameSoFar self.old came → HasStopped came piece.now gap self.new) }
    {
        let (len, rest) = self.line.read_count(piece, b'$', MAX_WORD_BYTES)?;
        self.len = len;
        self.word = OwnBytes::new(self.alloc);
        self.stage = Stage::Inside(len);
        Ok(rest)
    }

    // Memory was refused: no words are kept of this request.
    fn refuse(&mut self)
        ensures { self.new ≡ record self.old { word = []; words = []; is_refused = true } }
    {
        self.word = OwnBytes::new(self.alloc);
        self.words = HeardWords::new(self.alloc);
        self.is_refused = true;
    }

    // Keeps bytes of the word under way, if it is kept.
    fn keep(&mut self, bytes: &[u8])
        ensures { KeepsMore self.old bytes.now self.new }
    {
        if self.is_refused || self.len > self.most {
            return;
        }
        if self.word.add(bytes).is_err() {
            self.refuse();
        }
    }

    // Bytes of the word under way, of which so many are missing.
    fn take_bytes<'p>(&mut self, piece: &'p [u8], left: u64) -> &'p [u8]
        requires stage { self.old.stage ≡ Inside left }
        requires left { 0 < left }
        requires some { 0 < length piece.now }
        ensures less { length result.now < length piece.now }
        ensures most { self.new.most ≡ self.old.most }
        ensures going { self.new.stage ≢ Failed }
        ensures taken { (came : List ℕ) → CameSoFar self.old came → UsedFront came piece.now result.now self.new }
    {
        let count = left.min(piece.len() as u64);
        let (front, rest) = piece.split_at(count as usize);
        self.keep(front);
        self.stage = Stage::Inside(left - count);
        rest
    }

    // The CR behind the word under way.
    fn take_cr<'p>(&mut self, piece: &'p [u8]) -> Result<&'p [u8], Gap>
        requires stage { self.old.stage ≡ Inside 0 }
        requires some { 0 < length piece.now }
        ensures less { IfOk result (λ rest. length rest.now < length piece.now) }
        ensures most { self.new.most ≡ self.old.most }
        ensures going { self.new.stage ≢ Failed }
        ensures taken { IfOk result (λ rest. (came : List ℕ) →
            CameSoFar self.old came → UsedFront came piece.now rest.now self.new) }
        ensures stopped { IfErr result (λ gap. (came : List ℕ) →
            CameSoFar self.old came → HasStopped came piece.now gap self.new) }
    {
        let rest = read_byte(piece, b'\r')?;
        self.stage = Stage::AfterCr;
        Ok(rest)
    }

    // The word under way is whole, and is kept as it is to be.
    fn end_word(&mut self)
        requires due { 0 < self.old.due }
        ensures { KeepsWhole self.old self.new }
    {
        self.due -= 1;
        self.stage = Stage::Length;
        if self.is_refused {
            return;
        }
        let bytes = mem::replace(&mut self.word, OwnBytes::new(self.alloc));
        let word = if self.len <= self.most {
            HeardWord::Kept(bytes)
        } else {
            HeardWord::Long(self.len)
        };
        if self.words.push(word).is_err() {
            self.refuse();
        }
    }

    // The LF behind the word under way.
    fn take_lf<'p>(&mut self, piece: &'p [u8]) -> Result<&'p [u8], Gap>
        requires stage { self.old.stage ≡ AfterCr }
        requires begun { (came : List ℕ) × CameSoFar self.old came }
        requires some { 0 < length piece.now }
        ensures less { IfOk result (λ rest. length rest.now < length piece.now) }
        ensures most { self.new.most ≡ self.old.most }
        ensures going { self.new.stage ≢ Failed }
        ensures taken { IfOk result (λ rest. (came : List ℕ) →
            CameSoFar self.old came → UsedFront came piece.now rest.now self.new) }
        ensures stopped { IfErr result (λ gap. (came : List ℕ) →
            CameSoFar self.old came → HasStopped came piece.now gap self.new) }
    {
        let rest = read_byte(piece, b'\n')?;
        self.end_word();
        Ok(rest)
    }

    // Uses bytes of a piece, up to the end of what comes next.
    fn step<'p>(&mut self, piece: &'p [u8]) -> Result<&'p [u8], Gap>
        requires begun { (came : List ℕ) × CameSoFar self.old came }
        requires some { 0 < length piece.now }
        ensures less { IfOk result (λ rest. length rest.now < length piece.now) }
        ensures most { self.new.most ≡ self.old.most }
        ensures failed { self.new.stage ≡ Failed → self.old.stage ≡ Failed }
        ensures still { self.old.stage ≡ Failed → self.new.stage ≡ Failed }
        ensures taken { IfOk result (λ rest. (came : List ℕ) →
            CameSoFar self.old came → UsedFront came piece.now rest.now self.new) }
        ensures stopped { IfErr result (λ gap. (came : List ℕ) →
            CameSoFar self.old came → HasStopped came piece.now gap self.new) }
    {
        match self.stage {
            Stage::Count => self.take_count(piece),
            Stage::Length => self.take_length(piece),
            Stage::Inside(0) => self.take_cr(piece),
            Stage::Inside(left) => Ok(self.take_bytes(piece, left)),
            Stage::AfterCr => self.take_lf(piece),
            Stage::Failed => Err(Gap::Bad),
        }
    }

    // Whether no word is due any more.
    fn is_whole(&self) -> bool
        ensures whole { result ≡ true → (self.now.stage ≡ Length) × (self.now.due ≡ 0) }
        ensures open { result ≡ false → IsOpenAt self.now.stage self.now }
    {
        match self.stage {
            Stage::Length => self.due == 0,
            Stage::Count | Stage::Inside(_) | Stage::AfterCr | Stage::Failed => false,
        }
    }

    // Tells a whole request, and begins anew.
    fn finish(&mut self) -> Heard
        requires stage { self.old.stage ≡ Length }
        requires due { self.old.due ≡ 0 }
        requires line { self.old.line ≡ [] }
        ensures most { self.new.most ≡ self.old.most }
        ensures heard { (came rest : List ℕ) → CameSoFarAt Length self.old came →
            HasHeard self.old came rest result rest self.new }
    {
        let words = mem::replace(&mut self.words, HeardWords::new(self.alloc));
        self.stage = Stage::Count;
        if self.is_refused {
            self.is_refused = false;
            return Heard::NoMemory;
        }
        Heard::Request(words)
    }

    // Tells that the request isn't whole, or once that none begins so.
    fn stop(&mut self, gap: Gap) -> Heard
        ensures most { self.new.most ≡ self.old.most }
        ensures heard { (came piece : List ℕ) → HasStopped came piece gap self.old →
            HasHeard self.old came piece result [] self.new }
    {
        match (gap, self.stage) {
            (Gap::Incomplete, _) | (Gap::Bad, Stage::Failed) => Heard::Partial,
            (Gap::Bad, _) => {
                self.stage = Stage::Failed;
                Heard::Bad
            }
        }
    }

    // Steps on up to the end of a request, or of the piece.
    fn hear<'p>(&mut self, piece: &'p [u8]) -> (Heard, &'p [u8])
        requires begun { (came : List ℕ) × CameSoFar self.old came }
        ensures most { self.new.most ≡ self.old.most }
        ensures heard { (came : List ℕ) → CameSoFar self.old came →
            HasHeard self.old came piece.now result.0 result.1.now self.new }
    {
        let mut rest = piece;
        while !rest.is_empty() {
            match self.step(rest) {
                Ok(behind) => rest = behind,
                Err(gap) => return (self.stop(gap), &[]),
            }
            if self.is_whole() {
                return (self.finish(), rest);
            }
        }
        (Heard::Partial, rest)
    }

    /// Uses a piece up to the end of a request, or all of it, and gives the rest. It makes no difference how the bytes
    /// of a request are cut into pieces: they are heard as they would be read in one piece. A request of no words is
    /// one too. Where memory is refused for words, the request is passed over to its end, and told as NoMemory. Once
    /// it was told that no request begins so, all that follows is passed over.
    pub fn read<'p>(&mut self, piece: &'p [u8]) -> (Heard, &'p [u8])
        requires begun { (came : List ℕ) × CameSoFar self.old came }
        ensures most { most_kept self.new ≡ most_kept self.old }
        ensures heard { (came : List ℕ) → CameSoFar self.old came →
            HasHeard self.old came piece.now result.0 result.1.now self.new }
        ensures whole { (came : List ℕ) → CameSoFar self.old came → (HasFailed self.old → ⊥) →
            IsHeardAs (most_kept self.old) (came ++ piece.now) result.0 result.1.now }
    {
        self.hear(piece)
    }
}
