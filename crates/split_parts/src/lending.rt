// Parts that are lent one by one.
ghost use Rattle.std.specs.Prelude.{◌≡◌, ◌+◌, ◌<◌, slice_set, Some};
ghost use Rattle.split_parts.specs.Parts.{seen, session_of, sessions_seen, janitor_of, clock_of, node_of, cells_of, table_of, master_of, names_of};
ghost use Rattle.split_parts.specs.Lending.{LendsBelow, no_parts};
ghost use Rattle.split_parts.specs.Plans.{plan_data};

use crate::parts::{
    CellsPart, ClockPart, JanitorPart, MasterPart, NamesPart, NodePart, SessionPart, TablePart,
};
use crate::{Lent, Plan};

impl<'a> Lent<'a> {
    /// Nothing is lent, under this plan.
    pub fn none(plan: &'a Plan) -> Lent<'a>
        ensures { seen result ≡ no_parts (plan_data plan.now) }
    {
        Lent {
            plan,
            s0: None,
            s1: None,
            s2: None,
            s3: None,
            s4: None,
            s5: None,
            s6: None,
            s7: None,
            s8: None,
            s9: None,
            s10: None,
            s11: None,
            s12: None,
            s13: None,
            s14: None,
            s15: None,
            janitor: None,
            clock: None,
            node: None,
            cells: None,
            table: None,
            master: None,
            names: None,
        }
    }

    /// The session of this number is lent too.
    pub fn with_session(self, number: usize, part: &'a mut SessionPart) -> Lent<'a>
        requires { number < 16 }
        ensures { seen result ≡ record (seen self.entry) { sessions = slice_set (sessions_seen self.entry) number (Some (session_of part.entry.now)) } }
    {
        let mut lent = self;
        match number {
            0 => lent.s0 = Some(part),
            1 => lent.s1 = Some(part),
            2 => lent.s2 = Some(part),
            3 => lent.s3 = Some(part),
            4 => lent.s4 = Some(part),
            5 => lent.s5 = Some(part),
            6 => lent.s6 = Some(part),
            7 => lent.s7 = Some(part),
            8 => lent.s8 = Some(part),
            9 => lent.s9 = Some(part),
            10 => lent.s10 = Some(part),
            11 => lent.s11 = Some(part),
            12 => lent.s12 = Some(part),
            13 => lent.s13 = Some(part),
            14 => lent.s14 = Some(part),
            _ => lent.s15 = Some(part),
        }
        lent
    }

    /// The session of this number is lent too, after those below it.
    #[tactic(auto, using(crate::proofs::LentSessions::below_more))]
    pub fn with_next_session(self, number: usize, part: &'a mut SessionPart) -> Lent<'a>
        requires number { number < 16 }
        requires below { LendsBelow number (seen self) }
        ensures plan { (seen result).plan ≡ (seen self.entry).plan }
        ensures below { LendsBelow (number + 1) (seen result) }
    {
        self.with_session(number, part)
    }

    /// The janitor is lent too.
    pub fn with_janitor(self, part: &'a mut JanitorPart) -> Lent<'a>
        ensures { seen result ≡ record (seen self.entry) { janitor = Some (janitor_of part.entry.now) } }
    {
        let mut lent = self;
        lent.janitor = Some(part);
        lent
    }

    /// The clock is lent too.
    pub fn with_clock(self, part: &'a mut ClockPart) -> Lent<'a>
        ensures { seen result ≡ record (seen self.entry) { clock = Some (clock_of part.entry.now) } }
    {
        let mut lent = self;
        lent.clock = Some(part);
        lent
    }

    /// The node is lent too.
    pub fn with_node(self, part: &'a mut NodePart) -> Lent<'a>
        ensures { seen result ≡ record (seen self.entry) { node = Some (node_of part.entry.now) } }
    {
        let mut lent = self;
        lent.node = Some(part);
        lent
    }

    /// The cells are lent too.
    pub fn with_cells(self, part: &'a mut CellsPart) -> Lent<'a>
        ensures { seen result ≡ record (seen self.entry) { cells = Some (cells_of part.entry.now) } }
    {
        let mut lent = self;
        lent.cells = Some(part);
        lent
    }

    /// The commit table is lent too.
    pub fn with_table(self, part: &'a mut TablePart) -> Lent<'a>
        ensures { seen result ≡ record (seen self.entry) { table = Some (table_of part.entry.now) } }
    {
        let mut lent = self;
        lent.table = Some(part);
        lent
    }

    /// The master record is lent too.
    pub fn with_master(self, part: &'a mut MasterPart) -> Lent<'a>
        ensures { seen result ≡ record (seen self.entry) { master = Some (master_of part.entry.now) } }
    {
        let mut lent = self;
        lent.master = Some(part);
        lent
    }

    /// The posted names are lent too.
    pub fn with_names(self, part: &'a mut NamesPart) -> Lent<'a>
        ensures { seen result ≡ record (seen self.entry) { names = Some (names_of part.entry.now) } }
    {
        let mut lent = self;
        lent.names = Some(part);
        lent
    }
}
