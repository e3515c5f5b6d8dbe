//! The verbs of lines.

ghost use Rattle.std.specs.Prelude.{◌≡◌};
ghost use Rattle.am_line_text.specs.Verbs.{word_of, verb_among, verb_for};

/// What a line asks for, by its first word.
#[derive(Clone, Copy, PartialEq, Eq)]
pub enum Verb {
    Begin,
    Get,
    Scan,
    ScanBack,
    Insert,
    Replace,
    Set,
    Delete,
    DeleteRange,
    Load,
    Put,
    Stage,
    Lock,
    Mark,
    Back,
    Commit,
    Abort,
    Merge,
    Clean,
    Seen,
    Hold,
    Who,
    End,
    Quit,
}

const VERBS: [Verb; 24] = [
    Verb::Begin,
    Verb::Get,
    Verb::Scan,
    Verb::ScanBack,
    Verb::Insert,
    Verb::Replace,
    Verb::Set,
    Verb::Delete,
    Verb::DeleteRange,
    Verb::Load,
    Verb::Put,
    Verb::Stage,
    Verb::Lock,
    Verb::Mark,
    Verb::Back,
    Verb::Commit,
    Verb::Abort,
    Verb::Merge,
    Verb::Clean,
    Verb::Seen,
    Verb::Hold,
    Verb::Who,
    Verb::End,
    Verb::Quit,
];

impl Verb {
    /// The word that a line of this verb begins with.
    pub fn word(self) -> &'static [u8]
        ensures { result.now ≡ word_of self }
    {
        match self {
            Verb::Begin => b"BEGIN",
            Verb::Get => b"GET",
            Verb::Scan => b"SCAN",
            Verb::ScanBack => b"RSCAN",
            Verb::Insert => b"INS",
            Verb::Replace => b"REP",
            Verb::Set => b"SET",
            Verb::Delete => b"DEL",
            Verb::DeleteRange => b"DELR",
            Verb::Load => b"LOAD",
            Verb::Put => b"PUT",
            Verb::Stage => b"STAGE",
            Verb::Lock => b"LOCK",
            Verb::Mark => b"MARK",
            Verb::Back => b"BACK",
            Verb::Commit => b"COMMIT",
            Verb::Abort => b"ABORT",
            Verb::Merge => b"MERGE",
            Verb::Clean => b"CLEAN",
            Verb::Seen => b"SEEN",
            Verb::Hold => b"HOLD",
            Verb::Who => b"WHO",
            Verb::End => b"END",
            Verb::Quit => b"QUIT",
        }
    }

    /// The verb of the word. Those that come most often are sought among the few with their letter.
    pub fn of_word(word: &[u8]) -> Option<Verb>
        ensures { result ≡ verb_for word.now }
    {
        match word.first() {
            Some(b'G') => find(&[Verb::Get], word),
            Some(b'I') => find(&[Verb::Insert], word),
            Some(b'R') => find(&[Verb::ScanBack, Verb::Replace], word),
            Some(b'S') => find(&[Verb::Scan, Verb::Set, Verb::Stage, Verb::Seen], word),
            Some(b'D') => find(&[Verb::Delete, Verb::DeleteRange], word),
            _ => find(&VERBS, word),
        }
    }
}

// The one of the verbs that has the word.
fn find(verbs: &[Verb], word: &[u8]) -> Option<Verb>
    ensures { result ≡ verb_among verbs.now word.now }
{
    verbs.iter().copied().find(|verb| verb.word() == word)
}
