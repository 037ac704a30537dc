//! The twenty keywords of a plan text, and the one function that tells a word from them.

#![tactic(auto)]

ghost use Rattle.std.specs.Prelude.{◌≡◌};
ghost use Rattle.std.specs.Str.{bytes_eq};
ghost use Rattle.keywords.specs.Keywords.{spelt, keywords, first_spelt, keyword, Recognised};

#[derive(Clone, Copy, PartialEq, Eq)]
pub enum Keyword {
    Version,
    TestPlan,
    BinDefs,
    BinGroup,
    Bin,
    LeafBin,
    SortBinGroup,
    Counters,
    Test,
    Flow,
    FlowItem,
    Result,
    Property,
    PassFail,
    IncrementCounters,
    SetBin,
    GoTo,
    Return,
    FlowDefs,
    MainFlow,
}

const KEYWORDS: [Keyword; 20] = [
    Keyword::Version,
    Keyword::TestPlan,
    Keyword::BinDefs,
    Keyword::BinGroup,
    Keyword::Bin,
    Keyword::LeafBin,
    Keyword::SortBinGroup,
    Keyword::Counters,
    Keyword::Test,
    Keyword::Flow,
    Keyword::FlowItem,
    Keyword::Result,
    Keyword::Property,
    Keyword::PassFail,
    Keyword::IncrementCounters,
    Keyword::SetBin,
    Keyword::GoTo,
    Keyword::Return,
    Keyword::FlowDefs,
    Keyword::MainFlow,
];

impl Keyword {
    // The bytes by which a plan text writes the keyword.
    pub fn spelling(self) -> &'static [u8]
        ensures { result.now ≡ spelt self }
    {
        match self {
            Keyword::Version => b"Version",
            Keyword::TestPlan => b"TestPlan",
            Keyword::BinDefs => b"BinDefs",
            Keyword::BinGroup => b"BinGroup",
            Keyword::Bin => b"Bin",
            Keyword::LeafBin => b"LeafBin",
            Keyword::SortBinGroup => b"SortBinGroup",
            Keyword::Counters => b"Counters",
            Keyword::Test => b"Test",
            Keyword::Flow => b"Flow",
            Keyword::FlowItem => b"FlowItem",
            Keyword::Result => b"Result",
            Keyword::Property => b"Property",
            Keyword::PassFail => b"PassFail",
            Keyword::IncrementCounters => b"IncrementCounters",
            Keyword::SetBin => b"SetBin",
            Keyword::GoTo => b"GoTo",
            Keyword::Return => b"Return",
            Keyword::FlowDefs => b"FlowDefs",
            Keyword::MainFlow => b"MainFlow",
        }
    }
}

// Whether the word is spelt as the keyword is. Apart from the search, so that the compiler keeps the spellings in a table; inside
// it they become twenty jumps.
fn is_spelt(k: Keyword, word: &[u8]) -> bool
    ensures { result ≡ bytes_eq word.now (spelt k) }
{
    word == k.spelling()
}

// The first of the keywords whose spelling the word is.
fn first_spelt(keywords: &[Keyword], word: &[u8]) -> Option<Keyword>
    ensures { result ≡ first_spelt keywords.now word.now }
{
    keywords.iter().copied().find(|k| is_spelt(*k, word))
}

// The keyword that the word is spelt as.
fn listed(word: &[u8]) -> Option<Keyword>
    ensures { result ≡ first_spelt keywords word.now }
{
    first_spelt(&KEYWORDS, word)
}

// The keyword that the word is, byte for byte; any other word is none.
pub fn keyword_of(word: &[u8]) -> Option<Keyword>
    ensures told { result ≡ keyword word.now }
    ensures exactly { Recognised word.now result }
{
    listed(word)
}
