ghost use Rattle.std.specs.Prelude.{◌≡◌, ℕ, ◌≤◌, ◌↔◌, List, None, Some, IsSome};
ghost use Rattle.std.specs.List.{Contains};
ghost use Rattle.std.specs.List.Sorted.{IsStrictlyIncreasing};
ghost use Rattle.system_parts.specs.declared.rows.Cell.{Cell};
ghost use Rattle.system_parts.specs.Rows.{Row, AreOrdered, AreFalling, AreUpto, IsBare, bare_cell, fetched, front_of, keys_of_version, looked, put_row, shadowed, with_shadow, without_bare};

use stamp_base::{Stamp, Value};

/// A version of a key, as a fetch or a look gives it.
#[derive(Clone, Copy, Debug, PartialEq, Eq)]
pub struct Cell {
    /// The transaction that wrote it.
    pub version: Stamp,
    /// What it wrote.
    pub value: Value,
    /// The transaction's commit, where it was filled in.
    pub shadow: Option<Stamp>,
}

/// A fetch gives the cells that a look finds, and no others, from the greatest version down.
pub fn fetches_give_what_is_looked_up()
    ensures cells { (rows : List Row) (k upto : ℕ) (cell : Cell) → AreOrdered rows →
        (Contains (fetched rows k upto) cell ↔ ((looked rows k cell.version ≡ Some cell) × (cell.version ≤ upto))) }
    ensures falling { (rows : List Row) (k upto : ℕ) → AreOrdered rows → AreFalling (fetched rows k upto) }
    ensures upto { (rows : List Row) (k upto : ℕ) → AreUpto upto (fetched rows k upto) }
{}

/// The cells down to the first with a shadow below the start fall as all of them do.
pub fn fronts_fall()
    ensures falling { (start : ℕ) (cells : List Cell) → AreFalling cells → AreFalling (front_of start cells) }
    ensures upto { (start upto : ℕ) (cells : List Cell) → AreUpto upto cells → AreUpto upto (front_of start cells) }
{}

/// A version's keys are those where a look finds it, each once, ascending.
pub fn keys_of_a_version_are_looked_up()
    ensures keys { (rows : List Row) (k t : ℕ) → (Contains (keys_of_version rows t) k ↔ IsSome (looked rows k t)) }
    ensures ascending { (rows : List Row) (t : ℕ) → AreOrdered rows → IsStrictlyIncreasing (keys_of_version rows t) }
{}

/// A put leaves a bare cell with the value, and every other cell as it was.
pub fn puts_change_one_cell()
    ensures same { (rows : List Row) (k t : ℕ) (v : List ℕ) → IsBare rows k t →
        looked (put_row rows k t v) k t ≡ Some (bare_cell t v) }
    ensures others { (rows : List Row) (k t : ℕ) (v : List ℕ) (j u : ℕ) → (k ≡ j → t ≡ u → ⊥) →
        looked (put_row rows k t v) j u ≡ looked rows j u }
    ensures ordered { (rows : List Row) (k t : ℕ) (v : List ℕ) → AreOrdered rows → AreOrdered (put_row rows k t v) }
{}

/// A shadow changes the cell that is there, and no other.
pub fn shadows_change_one_cell()
    ensures same { (rows : List Row) (k t c : ℕ) → looked (with_shadow rows k t c) k t ≡ shadowed c (looked rows k t) }
    ensures others { (rows : List Row) (k t c j u : ℕ) → (k ≡ j → t ≡ u → ⊥) →
        looked (with_shadow rows k t c) j u ≡ looked rows j u }
    ensures ordered { (rows : List Row) (k t c : ℕ) → AreOrdered rows → AreOrdered (with_shadow rows k t c) }
{}

/// A removal takes a bare cell away. Where the cell has a shadow, or is not there, all stays as it was.
pub fn removals_take_bare_cells()
    ensures bare { (rows : List Row) (k t : ℕ) → AreOrdered rows → IsBare rows k t →
        looked (without_bare rows k t) k t ≡ None }
    ensures stays { (rows : List Row) (k t c : ℕ) (cell : Cell) → looked rows k t ≡ Some cell →
        cell.shadow ≡ Some c → without_bare rows k t ≡ rows }
    ensures absent { (rows : List Row) (k t : ℕ) → looked rows k t ≡ None → without_bare rows k t ≡ rows }
    ensures others { (rows : List Row) (k t j u : ℕ) → (k ≡ j → t ≡ u → ⊥) →
        looked (without_bare rows k t) j u ≡ looked rows j u }
    ensures ordered { (rows : List Row) (k t : ℕ) → AreOrdered rows → AreOrdered (without_bare rows k t) }
{}
