// Which bell is which.

/// A row of bells: those of all actors, or those of a node's stage.
#[derive(Clone, Copy, Debug, PartialEq, Eq)]
pub enum Row {
    /// The bells of all actors.
    Actors,
    /// The bells of the request stage of the node of this number.
    Requests(usize),
    /// The bells of the persist workers of the node of this number.
    Workers(usize),
    /// The bells of the reply stage of the node of this number.
    Replies(usize),
}

/// A bell: the one of this number in its row.
#[derive(Clone, Copy, Debug, PartialEq, Eq)]
pub struct Spot {
    /// The row.
    pub row: Row,
    /// Its number in the row, from 0.
    pub number: usize,
}

/// So many bells of a row, from a number on.
#[derive(Clone, Copy, Debug, PartialEq, Eq)]
pub struct Whom {
    /// The row.
    pub row: Row,
    /// The number of the first, from 0.
    pub from: usize,
    /// How many they are.
    pub count: usize,
}
