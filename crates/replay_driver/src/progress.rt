// How far a script is carried out, for whoever wants to show it.

/// Is told how far a script is carried out. What it does with that is no part of any promise.
pub trait Progress {
    /// So many lines of the script were carried out, of all that it has.
    fn carried_out(&self, lines: usize, of: usize);
}

/// Says nothing.
pub(crate) struct Silent;

impl Progress for Silent {
    fn carried_out(&self, _lines: usize, _of: usize) {}
}
