//! Texts: split by separators of every kind, searched, changed, and formatted.
//!
//! - `Separator::of` tells what a text is as a separator, `split_text` the pieces that one leaves, `split_between` those
//!   between the matches of a pattern; `FieldSeparator` is a value of FS with the rule on newlines, and splits all at once
//!   or field by field. Faults are `TextFault`s.
//! - `substr`, `index`, `lower`, `upper`, `match_at`: the functions of the language over texts and numbers.
//! - `substitute`, `substitute_into`, over a `Substitution`: sub and gsub.
//! - `format`, `format_into`, and `Format::{read, write_into}` for one that is used again: the formats of printf, whose
//!   faults are `FormatFault`s.
//! - `pieces_law`, `byte_pieces_law`, `pieces_from_law`, `separators_law`, `one_replaced`: what the definitions say in words.
#![tactic(auto)]

mod between;
mod blanks;
mod digits;
mod directive;
mod fault;
mod field;
mod field_separator;
mod format_fault;
mod functions;
mod marks;
mod matcher;
mod matching;
mod part;
mod prepared;
mod read;
mod replacement;
mod replacement_laws;
mod replacing;
mod separator;
mod separator_laws;
mod span;
mod split;
mod splitter;
mod substitution;
mod whole;
mod write;

pub use between::split_between;
pub use fault::TextFault;
pub use field_separator::FieldSeparator;
pub use format_fault::FormatFault;
pub use functions::{index, lower, substr, upper};
pub use matching::match_at;
pub use prepared::Format;
pub use replacement_laws::one_replaced;
pub use replacing::{substitute, substitute_into};
pub use separator::Separator;
pub use separator_laws::{byte_pieces_law, pieces_from_law, pieces_law, separators_law};
pub use span::{FoundField, Span};
pub use split::split_text;
pub use substitution::Substitution;
pub use whole::{format, format_into};
