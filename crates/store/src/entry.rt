// What a slot's entry says of its record.
ghost use Rattle.std.specs.Prelude.{◌≡◌};
ghost use Rattle.store.specs.Slots.{is_free, is_record, is_target, len, off};

use crate::Slot;

impl Slot {
    pub fn is_free(self) -> bool
        ensures { result ≡ is_free self }
    {
        matches!(self, Slot::Free)
    }

    pub fn is_record(self) -> bool
        ensures { result ≡ is_record self }
    {
        matches!(self, Slot::Ordinary { .. } | Slot::Target { .. })
    }

    pub fn is_target(self) -> bool
        ensures { result ≡ is_target self }
    {
        matches!(self, Slot::Target { .. })
    }

    // The bytes of the slot's record; 0 where it has none.
    pub fn len(self) -> usize
        ensures { result ≡ len self }
    {
        match self {
            Slot::Ordinary { length, .. } | Slot::Target { length, .. } => length,
            _ => 0,
        }
    }

    pub fn offset(self) -> usize
        ensures { result ≡ off self }
    {
        match self {
            Slot::Ordinary { offset, .. } | Slot::Target { offset, .. } => offset,
            _ => 0,
        }
    }
}
