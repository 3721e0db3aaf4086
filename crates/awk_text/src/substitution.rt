// What replacing the matches in a text gives.

/// A text with its matches replaced.
#[derive(Debug, Drop)]
pub struct Substitution {
    /// How many matches were replaced.
    pub count: u64,
    /// The text with the replacements in their places.
    pub text: Vec<u8>,
}
