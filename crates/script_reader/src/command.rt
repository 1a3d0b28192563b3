//! The first words of the lines behind line 2.
ghost use Rattle.std.specs.Prelude.{◌≡◌, codes};
ghost use Rattle.kv_block.specs.Bytes.{key_eq};
ghost use Rattle.script_reader.specs.Rules.{command_of};

// The first word of a line.
#[derive(Clone, Copy, Debug, PartialEq, Eq)]
pub enum Command {
    Hash,
    Client,
    Insert,
    Search,
    Update,
    Delete,
    Resize,
    Stop,
    Schedule,
    End,
}

impl Command {
    // The command that a word is.
    pub fn from_word(word: &[u8]) -> Option<Command>
        ensures { result ≡ command_of word.now }
    {
        if is_text(word, b"hash") {
            Some(Command::Hash)
        } else if is_text(word, b"client") {
            Some(Command::Client)
        } else if is_text(word, b"insert") {
            Some(Command::Insert)
        } else if is_text(word, b"search") {
            Some(Command::Search)
        } else if is_text(word, b"update") {
            Some(Command::Update)
        } else if is_text(word, b"delete") {
            Some(Command::Delete)
        } else if is_text(word, b"resize") {
            Some(Command::Resize)
        } else if is_text(word, b"stop") {
            Some(Command::Stop)
        } else if is_text(word, b"schedule") {
            Some(Command::Schedule)
        } else if is_text(word, b"end") {
            Some(Command::End)
        } else {
            None
        }
    }
}

// Whether a word is this text.
pub fn is_text(word: &[u8], text: &[u8]) -> bool
    ensures { result ≡ key_eq word.now text.now }
{
    word == text
}
