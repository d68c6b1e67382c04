//! Type texts as they are read: dimensions and an element.

use crate::Kind;

/// The least and the greatest index of one dimension.
#[derive(Clone, Copy, Debug, PartialEq, Eq)]
pub struct Ends {
    pub low: i32,
    pub high: i32,
}

/// What stands for an element.
#[derive(Clone, Copy, Debug, PartialEq, Eq)]
pub enum ElemText<'a> {
    Plain(Kind),
    /// `STRING(n)`; `STRING` alone is `STRING(80)`.
    Text(u16),
    /// The name of a type, as it is written.
    Named(&'a [u8]),
}

/// A type text that was read.
#[derive(Clone, Copy, Debug, PartialEq, Eq)]
pub struct TypeText<'a> {
    /// The number of dimensions, 0 where the text is no array.
    pub count: u8,
    /// Those that are not used are 0 and 0.
    pub first: Ends,
    pub second: Ends,
    pub third: Ends,
    pub elem: ElemText<'a>,
}
