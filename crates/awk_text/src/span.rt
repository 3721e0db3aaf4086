/// A stretch of a text: the bytes from `start` up to `end`.
#[derive(Clone, Copy)]
pub struct Span {
    pub start: usize,
    pub end: usize,
}

/// A field of a text, and the place from which on those behind it are found.
#[derive(Clone, Copy)]
pub struct FoundField {
    pub span: Span,
    pub rest: usize,
}
