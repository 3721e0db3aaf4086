// Words, and what they mean.

ghost use Rattle.std.specs.Prelude.{◌≡◌, bytes_eq, find};
ghost use Rattle.std.specs.List.{list_all, list_any};
ghost use Rattle.std.specs.Option.{option_map};
ghost use Rattle.awk_lex.specs.definitions.Tables.{keywords, built_ins, reserved, kind_in};
ghost use Rattle.awk_lex.specs.definitions.Words.{is_name_start, is_word_byte, is_word, is_reserved, is_left_out};

use crate::token::{BuiltIn, Keyword, Kind};

const KEYWORDS: [(&[u8], Keyword); 19] = [
    (b"BEGIN", Keyword::Begin),
    (b"END", Keyword::End),
    (b"function", Keyword::Function),
    (b"if", Keyword::If),
    (b"else", Keyword::Else),
    (b"while", Keyword::While),
    (b"for", Keyword::For),
    (b"do", Keyword::Do),
    (b"break", Keyword::Break),
    (b"continue", Keyword::Continue),
    (b"next", Keyword::Next),
    (b"nextfile", Keyword::NextFile),
    (b"exit", Keyword::Exit),
    (b"return", Keyword::Return),
    (b"delete", Keyword::Delete),
    (b"in", Keyword::In),
    (b"getline", Keyword::Getline),
    (b"print", Keyword::Print),
    (b"printf", Keyword::Printf),
];

const BUILT_INS: [(&[u8], BuiltIn); 14] = [
    (b"length", BuiltIn::Length),
    (b"substr", BuiltIn::Substr),
    (b"index", BuiltIn::Index),
    (b"split", BuiltIn::Split),
    (b"sub", BuiltIn::Sub),
    (b"gsub", BuiltIn::Gsub),
    (b"match", BuiltIn::Match),
    (b"sprintf", BuiltIn::Sprintf),
    (b"tolower", BuiltIn::ToLower),
    (b"toupper", BuiltIn::ToUpper),
    (b"int", BuiltIn::Int),
    (b"system", BuiltIn::System),
    (b"close", BuiltIn::Close),
    (b"fflush", BuiltIn::Fflush),
];

const LEFT_OUT: [&[u8]; 9] = [
    b"atan2", b"cos", b"sin", b"exp", b"log", b"sqrt", b"rand", b"srand", b"func",
];

pub(crate) fn is_name_start(byte: u8) -> bool
    ensures { result ≡ is_name_start byte }
{
    byte.is_ascii_alphabetic() || byte == b'_'
}

/// Whether a byte is a letter, a digit or an underscore.
pub fn is_word_byte(byte: u8) -> bool
    ensures { result ≡ is_word_byte byte }
{
    is_name_start(byte) || byte.is_ascii_digit()
}

fn are_word_bytes(bytes: &[u8]) -> bool
    ensures { result ≡ list_all is_word_byte bytes.now }
{
    bytes.iter().all(|byte| is_word_byte(*byte))
}

/// Whether a word is spelled as a name: of letters, digits and underscores, with no digit first.
pub fn is_name(word: &[u8]) -> bool
    ensures { result ≡ is_word word.now }
{
    match word {
        [first, others @ ..] => is_name_start(*first) && are_word_bytes(others),
        [] => false,
    }
}

/// What a word stands for in a table.
fn look_up<T: Copy>(table: &[(&[u8], T)], word: &[u8]) -> Option<T>
    ensures { result ≡ option_map (λ row. row.1) (find (λ row. bytes_eq word.now row.0.now) table.now) }
{
    table.iter().find(|row| row.0 == word).map(|row| row.1)
}

fn keyword(word: &[u8]) -> Option<Keyword>
    ensures { option_map (λ keyword. Kind.Keyword keyword) result ≡ kind_in keywords word.now }
{
    look_up(&KEYWORDS, word)
}

fn built_in(word: &[u8]) -> Option<BuiltIn>
    ensures { option_map (λ function. Kind.BuiltIn function) result ≡ kind_in built_ins word.now }
{
    look_up(&BUILT_INS, word)
}

/// The kind of a keyword or a built-in function's name.
pub(crate) fn reserved_kind(word: &[u8]) -> Option<Kind>
    ensures { result ≡ kind_in reserved word.now }
{
    match keyword(word) {
        Some(keyword) => Some(Kind::Keyword(keyword)),
        None => built_in(word).map(|function| Kind::BuiltIn(function)),
    }
}

/// Whether a word is a keyword or a built-in function's name (POSIX awk, Lexical Conventions).
pub fn is_reserved(word: &[u8]) -> bool
    ensures { result ≡ is_reserved word.now }
{
    reserved_kind(word).is_some()
}

/// Whether a word is one of the table.
fn is_listed(word: &[u8], table: &[&[u8]]) -> bool
    ensures { result ≡ list_any (λ row. bytes_eq word.now row.now) table.now }
{
    table.iter().any(|row| *row == word)
}

/// Whether a name is one that other awks give a meaning and that this one leaves out (K7).
pub fn is_left_out(name: &[u8]) -> bool
    ensures { result ≡ is_left_out name.now }
{
    is_listed(name, &LEFT_OUT)
}
