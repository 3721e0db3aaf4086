// What an element of ARGV asks for.

ghost use Rattle.std.specs.Prelude.{◌≡◌, true};
ghost use Rattle.std.specs.List.{prefix_len};
ghost use Rattle.awk_lex.specs.Words.{is_word_byte};
ghost use Rattle.awk_semantics.specs.Inputs.{operand_of};
ghost use Rattle.awk_runtime.specs.support.Operands.{operand_in};

use awk_lex::words::{is_name, is_word_byte};

/// What an element of ARGV asks for. (POSIX awk, OPERANDS)
#[derive(Clone, Copy)]
pub enum OperandForm {
    /// Nothing: it is empty or absent.
    Nothing,
    /// An assignment to the name of so many bytes in front. Its text stands behind the `=`.
    Assignment(usize),
    StandardInput,
    File,
}

// How many letters, digits and underscores stand in front.
fn name_len(word: &[u8]) -> usize
    ensures { result ≡ prefix_len is_word_byte word.now }
{
    word.iter().take_while(|byte| is_word_byte(**byte)).count()
}

/// What an element of ARGV asks for. (POSIX awk, OPERANDS)
pub fn form_of(word: &[u8]) -> OperandForm
    ensures { operand_in word.now result ≡ operand_of word.now }
{
    if word.is_empty() {
        return OperandForm::Nothing;
    }
    let len = name_len(word);
    if len < word.len() && word[len] == b'=' && is_name(&word[..len]) {
        return OperandForm::Assignment(len);
    }
    if word == b"-".as_slice() {
        OperandForm::StandardInput
    } else {
        OperandForm::File
    }
}
