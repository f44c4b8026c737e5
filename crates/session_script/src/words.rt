/// The first four words of a line, empty where there are fewer, and how many words the line has. No form has
/// more than four, so the others are only counted.
#[derive(Clone, Copy, Debug)]
pub struct Words<'a> {
    /// The first word.
    pub first: &'a [u8],
    /// The second word.
    pub second: &'a [u8],
    /// The third word.
    pub third: &'a [u8],
    /// The fourth word.
    pub fourth: &'a [u8],
    /// How many words the line has.
    pub count: usize,
}
