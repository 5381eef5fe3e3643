// The events of a stage, and the group of each.
ghost use Rattle.std.specs.Prelude.{◌≡◌, ◌-◌, ◌++◌, ◌∷◌, [], IfOk, slice_index_or};

use grouped::FINISHED;
use std::alloc::{AllocError, Global};

// The group number of each event, and how many groups are held.
// The numbers are a list, since a shift notice is spent on one.
#[derive(Drop)]
pub struct Events {
    pub groups: Vec<u32>,
    held: u32,
}

impl Events {
    // No event.
    pub fn none(heap: Global) -> Events
        ensures groups { result.groups.items ≡ [] }
        ensures held { result.held ≡ 0 }
    {
        Events {
            groups: Vec::new(heap),
            held: 0,
        }
    }

    // How many groups are held.
    pub fn held(&self) -> usize
        ensures { result ≡ self.now.held }
    {
        self.held as usize
    }

    // The group number of an event, the finished one where there is no such event.
    pub fn group(&self, event: usize) -> u32
        ensures { result ≡ slice_index_or self.now.groups.items event 4294967295 }
    {
        self.groups.get(event).copied().unwrap_or(FINISHED)
    }

    // Opens an event as a group at the end, and answers the group's number.
    pub fn open(&mut self) -> Result<u32, AllocError>
        ensures group { IfOk result (λ g. g ≡ self.old.held) }
        ensures opened { IfOk result (λ g. self.new.groups.items ≡ self.old.groups.items ++ g ∷ []) }
    {
        let group = self.held;
        self.groups.push(group)?;
        self.held = group.saturating_add(1);
        Ok(group)
    }

    // So many groups left the stage, and the list of group numbers has followed.
    pub fn left(&mut self, dropped: u32)
        ensures held { self.new.held ≡ self.old.held - dropped }
        ensures groups { self.new.groups.items ≡ self.old.groups.items }
    {
        self.held = self.held.saturating_sub(dropped);
    }

    // The same events with the same groups, for another stage.
    pub fn copied(&self) -> Result<Events, AllocError>
        ensures groups { IfOk result (λ e. e.groups.items ≡ self.now.groups.items) }
        ensures held { IfOk result (λ e. e.held ≡ self.now.held) }
    {
        Ok(Events {
            groups: self.groups.clone()?,
            held: self.held,
        })
    }
}
