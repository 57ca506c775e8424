/// Lines that aren't read yet.
#[derive(Clone, Copy)]
pub(crate) struct Lines<'a> {
    /// The number of the first.
    pub(crate) line: u32,
    pub(crate) bytes: &'a [u8],
}
