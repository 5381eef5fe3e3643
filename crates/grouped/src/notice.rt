//! The shift notice of an emission: it must be spent, once, on the list of open group numbers.
ghost use Rattle.std.specs.Prelude.{◌≡◌, ◌≤◌, map};
ghost use Rattle.grouped.specs.Notices.{renumbered, spent};

/// What stands in a list of open group numbers for a group that has left.
pub const FINISHED: u32 = u32::MAX;

// The number in a notice that is spent.
const SPENT: u32 = u32::MAX;

/// How many groups an emission dropped, at most 256; 4,294,967,295 once the notice is spent. So whether it is spent is a fact of one number, which dropping it can ask for.
pub struct ShiftNotice {
    dropped: u32,
}

impl Drop for ShiftNotice {
    /// Only a spent notice may be let go: renumber the list of open group numbers first.
    fn drop(self)
        requires { self.dropped ≡ spent }
    {
        let ShiftNotice { dropped: _ } = self;
    }
}

// A group's number after `dropped` groups left in front of it.
fn renumber_one(group: u32, dropped: u32) -> u32
    ensures { result ≡ renumbered dropped group }
{
    if group == FINISHED || group < dropped {
        FINISHED
    } else {
        group - dropped
    }
}

impl ShiftNotice {
    // The notice of an emission that dropped so many groups.
    pub(crate) fn of(dropped: u32) -> ShiftNotice
        ensures { result.dropped ≡ dropped }
    {
        ShiftNotice { dropped }
    }

    /// Renumbers a list of open group numbers and answers how many groups the emission dropped: a group that has left becomes FINISHED, another's number falls by as many.
    ///
    /// This spends the notice: a second time is refused.
    pub fn renumber(&mut self, open: &mut [u32]) -> u32
        requires { self.old.dropped ≤ 256 }
        ensures answer { result ≡ self.old.dropped }
        ensures spends { self.new.dropped ≡ spent }
        ensures after { «open».new ≡ map (renumbered self.old.dropped) «open».old }
    {
        let dropped = self.dropped;
        for group in open.iter_mut() {
            *group = renumber_one(*group, dropped);
        }
        self.dropped = SPENT;
        dropped
    }
}
