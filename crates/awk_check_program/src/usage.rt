// Which word makes words no command line.

/// Why words are no command line, and the word that it is told of.
#[derive(Clone, Copy)]
pub(crate) struct UsageFault<'a> {
    pub(crate) message: &'static str,
    pub(crate) word: &'a [u8],
}

fn fault<'a>(message: &'static str, word: &'a [u8]) -> Option<UsageFault<'a>> {
    Some(UsageFault { message, word })
}

/// Whether bytes begin as `name=`.
pub(crate) fn assigns(value: &[u8]) -> bool {
    let Some(end) = value.iter().position(|byte| *byte == b'=') else {
        return false;
    };
    let name = value.get(..end).unwrap_or(b"");
    let begins = matches!(name.first(), Some(first) if !first.is_ascii_digit());
    begins
        && name
            .iter()
            .all(|byte| byte.is_ascii_alphanumeric() || *byte == b'_')
}

/// What is wrong with an option's value.
fn value_fault<'a>(option: u8, value: &'a [u8]) -> Option<UsageFault<'a>> {
    match option {
        b'v' if !assigns(value) => fault("no assignment name=text: ", value),
        b'L' if value.is_empty() || !value.iter().all(|byte| byte.is_ascii_digit()) => {
            fault("no number of steps: ", value)
        }
        _ => None,
    }
}

/// The first word that makes these words no command line, where one is found.
pub(crate) fn usage_fault<'a>(words: &'a [Vec<u8>]) -> Option<UsageFault<'a>> {
    let mut wanting = None;
    let mut has_file = false;
    for word in words {
        let word = word.as_slice();
        if std::str::from_utf8(word).is_err() {
            return fault("no text in UTF-8: ", word);
        }
        if let Some(option) = wanting {
            if let Some(found) = value_fault(option, word) {
                return Some(found);
            }
            wanting = None;
            continue;
        }
        match word {
            b"--" => continue,
            [b'-', option, value @ ..] if matches!(*option, b'F' | b'v' | b'L' | b'f') => {
                has_file = has_file || *option == b'f';
                if value.is_empty() {
                    wanting = Some(*option);
                } else if let Some(found) = value_fault(*option, value) {
                    return Some(found);
                }
            }
            [b'-', _, ..] => return fault("unknown option: ", word),
            _ => return None,
        }
    }
    match words.last() {
        Some(word) if wanting.is_some() => fault("a word is missing behind ", word.as_slice()),
        _ if has_file => None,
        _ => fault("no program", b""),
    }
}
