// What a disk in memory keeps of each event.
ghost use Rattle.std.specs.Prelude.{◌≡◌, ◌+◌, ℕ, List, ◌∷◌, false, OnOk};
ghost use Rattle.disk_model.specs.Disk.{Event, content};
ghost use Rattle.disk_model.specs.Choice.{chosen_image, pending};

use crate::NoMemory;
use crate::choice::Choice;
use crate::octets::{overwrite, write_behind_zeros};

#[derive(Drop)]
pub(crate) enum DiskEvent {
    // It began with these octets.
    Began(Vec<u8>),
    Write { at: u64, octets: Vec<u8> },
    Cut { len: u64 },
    // A sync succeeded.
    Sync,
}

impl DiskEvent {
    ghost use Rattle.disk_model.specs.Memory.{event_of, is_settling};

    // Whether the content is the only image from it on.
    pub(crate) fn is_settling(&self) -> bool
        ensures { result ≡ is_settling self.now }
    {
        match self {
            DiskEvent::Began(_) | DiskEvent::Sync => true,
            DiskEvent::Write { .. } | DiskEvent::Cut { .. } => false,
        }
    }

    pub(crate) fn redo(&self, whole: &mut Vec<u8>) -> Result<(), NoMemory>
        ensures { OnOk result ((log : List Event) → whole.old.items ≡ content log
            → whole.new.items ≡ content (event_of self.now ∷ log)) }
    {
        match self {
            DiskEvent::Began(first) => {
                whole.clear();
                whole.extend_from_slice(first)
            }
            DiskEvent::Write { at, octets } => overwrite(whole, *at as usize, octets),
            DiskEvent::Cut { len } => {
                whole.truncate(*len as usize);
                Ok(())
            }
            DiskEvent::Sync => Ok(()),
        }
    }

    // Does to an image what the choice has for the operation of this number.
    pub(crate) fn leave(
        &self,
        image: &mut Vec<u8>,
        choice: Choice,
        number: usize,
    ) -> Result<(), NoMemory>
        requires { is_settling self.now ≡ false }
        ensures { OnOk result ((log : List Event) → number ≡ pending log
            → image.old.items ≡ chosen_image choice log
            → image.new.items ≡ chosen_image choice (event_of self.now ∷ log)) }
    {
        match self {
            DiskEvent::Write { at, octets } => {
                let at = *at as usize;
                if choice.happens(number) {
                    return write_behind_zeros(image, at, octets);
                }
                if choice.fill != 0 {
                    let filling = vec![in *image.allocator(); choice.fill; octets.len()]?;
                    return write_behind_zeros(image, at, &filling);
                }
            }
            DiskEvent::Cut { len } if choice.happens(number) => image.truncate(*len as usize),
            _ => {}
        }
        Ok(())
    }
}
