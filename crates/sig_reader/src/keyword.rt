ghost use Rattle.std.specs.Prelude.{◌≡◌};
ghost use Rattle.sig_reader.specs.Forms.{
  verb_of,
  keyword_of,
  may_begin,
  may_be_outside,
  may_be_inside,
};

use sig_program::{VERBS, Verb};
use sig_terms::bytes::equal_bytes;

/// The word with which a line begins.
#[derive(Clone, Copy)]
pub enum Keyword {
    /// `turns`: how many instructions each process may execute.
    Turns,
    /// `process`: a process begins.
    Process,
    /// `message_queue_data`: where the process keeps its messages.
    QueueData,
    /// `label`: names the place of the next instruction.
    Label,
    /// An instruction that is no receive.
    Do(Verb),
    /// `receive`: a receive begins.
    Receive,
    /// `on`: a clause of the receive.
    On,
    /// `after`: where the receive goes on that finds no message.
    After,
    /// `end`: the receive ends.
    End,
}

/// The verb of these bytes.
fn read_verb(word: &[u8]) -> Option<Verb>
    ensures { result ≡ verb_of word.now }
{
    VERBS
        .iter()
        .copied()
        .find(|verb| equal_bytes(word, verb.word()))
}

/// The keyword of these bytes.
pub fn read_keyword(word: &[u8]) -> Option<Keyword>
    ensures { result ≡ keyword_of word.now }
{
    if equal_bytes(word, b"turns") {
        Some(Keyword::Turns)
    } else if equal_bytes(word, b"process") {
        Some(Keyword::Process)
    } else if equal_bytes(word, b"message_queue_data") {
        Some(Keyword::QueueData)
    } else if equal_bytes(word, b"label") {
        Some(Keyword::Label)
    } else if equal_bytes(word, b"receive") {
        Some(Keyword::Receive)
    } else if equal_bytes(word, b"on") {
        Some(Keyword::On)
    } else if equal_bytes(word, b"after") {
        Some(Keyword::After)
    } else if equal_bytes(word, b"end") {
        Some(Keyword::End)
    } else {
        let verb = read_verb(word)?;
        Some(Keyword::Do(verb))
    }
}

impl Keyword {
    /// Whether a line may begin with it before the first process, behind these turns.
    pub fn may_begin(self, turns: Option<u32>) -> bool
        ensures { result ≡ may_begin turns self }
    {
        match self {
            Keyword::Turns => turns.is_none(),
            Keyword::Process => true,
            _ => false,
        }
    }

    /// Whether a line may begin with it in a process, outside a receive.
    pub fn may_be_outside(self) -> bool
        ensures { result ≡ may_be_outside self }
    {
        match self {
            Keyword::Process => true,
            Keyword::QueueData => true,
            Keyword::Label => true,
            Keyword::Do(_) => true,
            Keyword::Receive => true,
            _ => false,
        }
    }

    /// Whether a line may begin with it in a receive, whose `after` has stood or not.
    pub fn may_be_inside(self, has_after: bool) -> bool
        ensures { result ≡ may_be_inside has_after self }
    {
        match self {
            Keyword::On => !has_after,
            Keyword::After => !has_after,
            Keyword::End => true,
            _ => false,
        }
    }
}
