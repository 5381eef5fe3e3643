//! A slot for each held group: whether it is set.
ghost use Rattle.std.specs.Prelude.{◌≡◌, ◌+◌, ◌-◌, ◌<◌, ◌≤◌, true, false, [], ◌++◌, length, drop, replicate, slice_index_or, slice_set};
ghost use Rattle.grouped.specs.Slots.{flags_held};

use layout::FlagSource;

/// Whether a group has a winner.
#[derive(Clone, Copy)]
pub struct Slot {
    pub(crate) set: bool,
}

/// The slots of up to 256 groups, of which so many are held: the original's `is_sets`.
#[derive(Drop)]
pub struct SlotTable {
    pub(crate) slots: [Slot; 256],
    pub(crate) len: usize,
}

// Makes each slot unset.
fn unset(slots: &mut [Slot])
    ensures { slots.new ≡ replicate (length slots.old) (record { set = false }) }
{
    for slot in slots.iter_mut() {
        *slot = Slot { set: false };
    }
}

impl SlotTable {
    // An empty slot table.
    pub(crate) fn new() -> SlotTable
        ensures none { flags_held result ≡ [] }
        ensures len { result.len ≡ 0 }
        ensures places { length result.slots ≡ 256 }
    {
        SlotTable {
            slots: [Slot { set: false }; 256],
            len: 0,
        }
    }

    // Whether a held group is set.
    #[inline]
    pub(crate) fn is_set(&self, group: usize) -> bool
        requires held { group < self.now.len }
        requires places { self.now.len ≤ length self.now.slots }
        ensures { result ≡ slice_index_or (flags_held self.now) group false }
    {
        self.slots[group].set
    }

    // Sets the slot of a held group.
    #[inline]
    pub(crate) fn set(&mut self, group: usize)
        requires held { group < self.old.len }
        requires places { self.old.len ≤ length self.old.slots }
        ensures flags { flags_held self.new ≡ slice_set (flags_held self.old) group true }
        ensures len { self.new.len ≡ self.old.len }
        ensures places { length self.new.slots ≡ length self.old.slots }
    {
        let slot = &mut self.slots[group];
        slot.set = true;
    }

    // Adds unset slots up to the total, for which there is room.
    pub(crate) fn grow(&mut self, total: usize)
        requires more { self.old.len ≤ total }
        requires room { total ≤ length self.old.slots }
        ensures flags { flags_held self.new ≡ flags_held self.old ++ replicate (total - self.old.len) false }
        ensures len { self.new.len ≡ total }
        ensures places { length self.new.slots ≡ length self.old.slots }
    {
        let held = self.len;
        unset(&mut self.slots[held..total]);
        self.len = total;
    }

    // Drops the first slots, of which there are as many.
    pub(crate) fn drop_first(&mut self, n: usize)
        requires held { n ≤ self.old.len }
        requires places { self.old.len ≤ length self.old.slots }
        ensures flags { flags_held self.new ≡ drop n (flags_held self.old) }
        ensures len { self.new.len ≡ self.old.len - n }
        ensures places { length self.new.slots ≡ length self.old.slots }
    {
        // Where none leaves, none has to move.
        if n > 0 {
            self.slots.copy_within(n..self.len, 0);
            self.len -= n;
        }
    }
}

// The set flags as truth values by group, none of which is missing.
impl FlagSource for SlotTable {
    ghost use Rattle.std.specs.Prelude.{slice_get};
    ghost use Rattle.std.specs.Option.{option_map};
    ghost use Rattle.grouped.specs.declared.slots.Slot.{Slot};

    ghost shows = { λ t k. option_map (λ (s : Slot). s.set) (slice_get t.slots k) };

    fn flag(&self, group: usize) -> Option<bool> {
        let slot = self.slots.get(group)?;
        Some(slot.set)
    }
}
