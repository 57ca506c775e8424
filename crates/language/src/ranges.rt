/// The values that a variable may have, by their numbers: from the first to the last.
#[derive(Clone, Copy, Debug, PartialEq, Eq)]
pub struct ValueRange {
    pub first: u8,
    pub last: u8,
}
