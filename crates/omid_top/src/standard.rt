/// What is asked of a history that is audited.
#[derive(Clone, Copy, Debug, PartialEq, Eq)]
pub enum Standard {
    /// That it is snapshot isolated.
    Isolated,
    /// That it is serial besides.
    Strict,
}
