// Write: the record becomes the given bytes.
// Segment and inventory, and what is known of them: two parameters and clauses, as lib.rt says.
ghost use Rattle.std.specs.Prelude.{◌≡◌, length, refl};
ghost use Rattle.store.specs.Segment.{write_step};
ghost use Rattle.store.specs.Answers.{outcome};

use crate::change::Change;
use store::Refusal;

#[derive(Clone, Copy)]
struct Written<'a> {
    bytes: &'a [u8],
}

impl<'a> Change for Written<'a> {
    ghost sized = { λ c. length c.bytes.now };

    ghost made = { λ c old. c.bytes.now };

    ghost long = { λ c old. refl };

    fn size(&self) -> usize {
        self.bytes.len()
    }

    fn on_page(&self, segment: &mut [u8], p: usize, k: usize) -> bool {
        segment_moves::rewrite_on(segment, p, k, self.bytes, self.bytes.len())
    }

    fn on_target(&self, segment: &mut [u8], p: usize, k: usize, id: usize) -> bool {
        segment_moves::rewrite_target_on(segment, p, k, id, self.bytes)
    }

    fn forward(
        &self,
        segment: &mut [u8],
        inventory: &mut [u8],
        id: usize,
    ) -> Result<usize, Refusal> {
        segment_forward::forward(segment, inventory, id, self.bytes, self.bytes.len())
    }

    fn go_home(
        &self,
        segment: &mut [u8],
        inventory: &mut [u8],
        id: usize,
        t: usize,
    ) -> Result<usize, Refusal> {
        segment_forward::at_home(segment, inventory, id, t, self.bytes, self.bytes.len())
    }

    fn forward_again(
        &self,
        segment: &mut [u8],
        inventory: &mut [u8],
        id: usize,
        t: usize,
    ) -> Result<usize, Refusal> {
        segment_forward::forward_again(segment, inventory, id, t, self.bytes, self.bytes.len())
    }
}

pub fn write_record(
    segment: &mut [u8],
    inventory: &mut [u8],
    id: usize,
    bytes: &[u8],
) -> Result<usize, Refusal>
    ensures { outcome result segment.new inventory.new
        ≡ write_step segment.old inventory.old id bytes.now }
{
    crate::store_record(segment, inventory, id, &Written { bytes })
}
