ghost use Rattle.system_parts.specs.Resolve.{MarkNeverDecides, DeadByLastLook, CommittedIsTold, MarksWhereAllowed, SettlesEnd};

use stamp_base::Stamp;

/// Where the resolve of one cell stands.
#[derive(Clone, Copy, Debug, PartialEq, Eq)]
pub enum SettlePoint {
    /// A look at the shadow, before the commit table is asked.
    FirstLook,
    /// The commit table is asked.
    Table,
    /// A mark is to be placed, unless the commit table has an entry by now.
    Marking,
    /// The look at the shadow that decides; `met` where a mark was placed or found before it.
    LastLook { met: bool },
}

/// What the resolve of one cell comes to.
#[derive(Clone, Copy, Debug, PartialEq, Eq)]
pub enum Outcome {
    /// The writer committed, as the commit table said or else a shadow.
    Committed { commit: Stamp, by_table: bool },
    /// The cell counts for nothing to the one who asks.
    Dead,
}

/// A mark alone never decides: one that was placed or found leads on to the last look, which knows of it.
pub fn mark_never_decides()
    ensures { MarkNeverDecides }
{}

/// A cell is dead only after a last look that showed no shadow.
pub fn dead_by_last_look()
    ensures { DeadByLastLook }
{}

/// A commit that decides was told: by the table, by a record that the mark found, or by a shadow.
pub fn committed_is_told()
    ensures { CommittedIsTold }
{}

/// A mark is asked only where one is allowed.
pub fn marks_where_allowed()
    ensures { MarksWhereAllowed }
{}

/// A resolve ends within four steps.
pub fn settles_end()
    ensures { SettlesEnd }
{}
