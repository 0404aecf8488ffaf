//! The words of lines. Each stands here alone: others name it.

ghost use Rattle.std.specs.Prelude.{◌≡◌};
ghost use Rattle.nt_grammar.specs.Keywords.{keyword_among, keyword_of, keyword_text};

/// Which call a line after `threads` makes, by the word after its caller.
#[derive(Clone, Copy, Debug, PartialEq, Eq)]
pub enum Keyword {
    Event,
    Semaphore,
    Mutex,
    Timer,
    Duplicate,
    Set,
    Reset,
    Pulse,
    Release,
    Unlock,
    Arm,
    Cancel,
    Apc,
    Close,
    Any,
    All,
    Sleep,
    Swap,
    Next,
    Exit,
}

// The words that may stand after the places of some calls.
pub const MANUAL: &[u8] = b"manual";

pub const SET: &[u8] = b"set";

pub const OWNED: &[u8] = b"owned";

// A time without end, and the two modes.
pub const INF: &[u8] = b"inf";

pub const PLAIN: &[u8] = b"plain";

pub const ALERTABLE: &[u8] = b"alertable";

/// Each keyword, in the order in which a word is compared with them: those of most lines of long scripts first.
pub const KEYWORDS: [Keyword; 20] = [
    Keyword::Any,
    Keyword::All,
    Keyword::Sleep,
    Keyword::Swap,
    Keyword::Next,
    Keyword::Exit,
    Keyword::Set,
    Keyword::Reset,
    Keyword::Pulse,
    Keyword::Release,
    Keyword::Unlock,
    Keyword::Arm,
    Keyword::Cancel,
    Keyword::Apc,
    Keyword::Close,
    Keyword::Event,
    Keyword::Semaphore,
    Keyword::Mutex,
    Keyword::Timer,
    Keyword::Duplicate,
];

impl Keyword {
    /// The keyword's word, as the table of the definitions has it.
    pub fn text(self) -> &'static str
        ensures { result.now ≡ keyword_text self }
    {
        match self {
            Keyword::Event => "event",
            Keyword::Semaphore => "semaphore",
            Keyword::Mutex => "mutex",
            Keyword::Timer => "timer",
            Keyword::Duplicate => "dup",
            Keyword::Set => "set",
            Keyword::Reset => "reset",
            Keyword::Pulse => "pulse",
            Keyword::Release => "release",
            Keyword::Unlock => "unlock",
            Keyword::Arm => "arm",
            Keyword::Cancel => "cancel",
            Keyword::Apc => "apc",
            Keyword::Close => "close",
            Keyword::Any => "any",
            Keyword::All => "all",
            Keyword::Sleep => "sleep",
            Keyword::Swap => "swap",
            Keyword::Next => "next",
            Keyword::Exit => "exit",
        }
    }

    /// The keyword that a word is.
    pub fn of(word: &[u8]) -> Option<Keyword>
        ensures { result ≡ keyword_of word.now }
    {
        keyword_among(&KEYWORDS, word)
    }
}

/// The first of these keywords that a word is.
fn keyword_among(keywords: &[Keyword], word: &[u8]) -> Option<Keyword>
    ensures { result ≡ keyword_among keywords.now word.now }
{
    for keyword in keywords {
        if word == keyword.text().as_bytes() {
            return Some(*keyword);
        }
    }
    None
}
