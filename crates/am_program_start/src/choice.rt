//! What a command line of `amaudit` asks for.

/// What `amaudit` is asked for.
#[derive(Clone, Copy, PartialEq, Eq)]
pub struct Audited<'a> {
    /// The file whose text is read, where one is named.
    pub file: Option<&'a str>,
    /// Whether the records that a legal trace leaves are told.
    pub tells_records: bool,
    /// Whether the run isn't ended: what stands after the last LF is left out.
    pub is_open: bool,
}
