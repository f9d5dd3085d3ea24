// The case file itself: bytes that are lent.

/// A case file. Bytes of any content and length make one: a broken file is the base that lists nothing.
#[derive(Clone, Copy, Debug, PartialEq, Eq)]
pub struct CaseFile<'a> {
    pub(crate) bytes: &'a [u8],
}
