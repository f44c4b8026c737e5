// A lent session is taken out of the lent parts, and put back.
ghost use Rattle.std.specs.Prelude.{◌≡◌, ◌<◌, None, slice_index_or, slice_set};
ghost use Rattle.split_parts.specs.Parts.{behind, seen, session_of, sessions_seen};

use crate::Lent;
use crate::parts::SessionPart;

impl<'a> Lent<'a> {
    /// The session is lent no longer, where it was, and is given.
    pub(crate) fn take_session(&mut self, number: usize) -> Option<&'a mut SessionPart>
        requires { number < 16 }
        ensures part { behind session_of result ≡ slice_index_or (sessions_seen self.old) number None }
        ensures parts { seen self.new ≡ record (seen self.old) { sessions = slice_set (sessions_seen self.old) number None } }
    {
        match number {
            0 => self.s0.take(),
            1 => self.s1.take(),
            2 => self.s2.take(),
            3 => self.s3.take(),
            4 => self.s4.take(),
            5 => self.s5.take(),
            6 => self.s6.take(),
            7 => self.s7.take(),
            8 => self.s8.take(),
            9 => self.s9.take(),
            10 => self.s10.take(),
            11 => self.s11.take(),
            12 => self.s12.take(),
            13 => self.s13.take(),
            14 => self.s14.take(),
            _ => self.s15.take(),
        }
    }

    /// The session is lent again.
    pub(crate) fn put_session(&mut self, number: usize, part: Option<&'a mut SessionPart>)
        requires { number < 16 }
        ensures { seen self.new ≡ record (seen self.old) { sessions = slice_set (sessions_seen self.old) number (behind session_of part.entry) } }
    {
        match number {
            0 => self.s0 = part,
            1 => self.s1 = part,
            2 => self.s2 = part,
            3 => self.s3 = part,
            4 => self.s4 = part,
            5 => self.s5 = part,
            6 => self.s6 = part,
            7 => self.s7 = part,
            8 => self.s8 = part,
            9 => self.s9 = part,
            10 => self.s10 = part,
            11 => self.s11 = part,
            12 => self.s12 = part,
            13 => self.s13 = part,
            14 => self.s14 = part,
            _ => self.s15 = part,
        }
    }
}
