// What a format is made of.

use crate::directive::Directive;
use awk_value::Bytes;

/// A part of a format.
#[derive(Drop)]
pub(crate) enum Part {
    /// Bytes that stand for themselves.
    Plain(Bytes),
    Directed(Directive),
    /// From a percent sign on that begins no directive.
    Refused,
}
