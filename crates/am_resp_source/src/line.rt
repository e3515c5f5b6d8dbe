//! A count line as far as it came.

ghost use Rattle.std.specs.Prelude.{◌≡◌, ℕ, ◌≤◌, ◌<◌, ◌-◌, List, [], ◌++◌, length, take, OnOk, IfOk, IfErr};
ghost use Rattle.am_resp_text.specs.Counts.{count_line};
ghost use Rattle.am_resp_text.specs.Requests.{IsCountLine};
ghost use Rattle.am_resp_text.specs.Gaps.{IsBeginning, IsGap};
ghost use Rattle.am_resp_text.specs.declared.fault.Gap.TheVariants.{Incomplete};

use am_resp_text::{Gap, read_count};
use arrayvec::ArrayVec;
use std::marker::Model;

/// More bytes than a count line has before its end.
const LINE_LEN: usize = 24;

/// The bytes of a count line that isn't whole.
#[derive(Drop)]
pub(crate) struct Line {
    bytes: ArrayVec<u8, LINE_LEN>,
}

impl Model for Line {
    ghost use Rattle.std.specs.Prelude.{ℕ, List};

    ghost Value = { List ℕ };

    ghost view = { λ l. l.bytes.items };
}

impl Line {
    /// No byte.
    pub(crate) fn new() -> Self
        ensures { result ≡ [] }
    {
        Line {
            bytes: ArrayVec::new(),
        }
    }

    fn len(&self) -> usize
        ensures len { result ≡ length self.now }
        ensures most { length self.now ≤ 24 }
    {
        self.bytes.len()
    }

    // Adds bytes at the end, as far as there is room for them.
    fn add(&mut self, bytes: &[u8])
        ensures { self.new ≡ self.old ++ take (24 - length self.old) bytes.now }
    {
        let count = bytes.len().min(LINE_LEN - self.len());
        let Ok(()) = self.bytes.try_extend_from_slice(&bytes[..count]) else {
            unreachable!()
        };
    }

    /// The number of the count line of which these bytes came, and then the piece, and what stands behind it.
    pub(crate) fn read_count<'p>(
        &mut self,
        piece: &'p [u8],
        mark: u8,
        most: u64,
    ) -> Result<(u64, &'p [u8]), Gap>
        requires begun { IsBeginning (IsCountLine mark most) self.old }
        ensures few { IfOk result (λ p. p.0 ≤ most) }
        ensures taken { IfOk result (λ p. (taken : List ℕ) ×
            (piece.now ≡ taken ++ p.1.now) × (self.old ++ taken ≡ count_line mark p.0)) }
        ensures less { IfOk result (λ p. length p.1.now < length piece.now) }
        ensures empty { OnOk result (self.new ≡ []) }
        ensures gap { IfErr result (IsGap (IsCountLine mark most) (self.old ++ piece.now)) }
        ensures kept { IfErr result (λ gap. gap ≡ Incomplete → self.new ≡ self.old ++ piece.now) }
    {
        let before = self.len();
        self.add(piece);
        let (number, rest) = read_count(self.bytes.as_slice(), mark, most)?;
        let used = self.len() - rest.len() - before;
        self.bytes.clear();
        Ok((number, &piece[used..]))
    }
}
