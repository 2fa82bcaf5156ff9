// What write and resize differ in: the record's new size and bytes, and where these come from when it moves to another page.
// Segment and inventory, and what is known of them: two parameters and clauses, as lib.rt says.
ghost use Rattle.std.specs.Prelude.{◌≡◌, ◌||◌, ◌++◌, ◌+◌, ◌≤◌, ℕ, List, length, drop, eqb};
ghost use Rattle.store.specs.Numbers.{to_be, page_no, slot_no};
ghost use Rattle.store.specs.PageSteps.{relocate};
ghost use Rattle.store.specs.Inventory.{found_in};
ghost use Rattle.store.specs.Segment.{seg_view, find, result as result_of, forwarded, forwarded_again, at_home};
ghost use Rattle.store.specs.Answers.{outcome};
ghost use Rattle.store.specs.Laws.Lent.{TakenOn};
ghost use Rattle.page_relocate.specs.Words.{was_moved, refilled};
ghost use Rattle.segment_steps.specs.Words.{Sizes, seen};
ghost use Rattle.segment_moves.specs.Words.{relocated_on};
ghost use Rattle.segment_forward.specs.Words.{Follows};

use store::Refusal;

pub trait Change {
    // The record's new size, and what becomes of its old bytes.
    ghost sized: { Self → ℕ };

    ghost made: { Self → List ℕ → List ℕ };

    fn size(&self) -> usize
        ensures { result ≡ sized self.now };

    // The record of slot k, on its page p: false where that has no room, and then nothing is written.
    fn on_page(&self, segment: &mut [u8], p: usize, k: usize) -> bool
        requires { TakenOn segment.old p k }
        ensures { (segment.new
            ≡ relocated_on segment.old p
            (refilled (relocate (seen segment.old p) k (sized self.now)) k (made self.now ((seen segment.old p).bytes k))))
            × (result ≡ was_moved (relocate (seen segment.old p) k (sized self.now))) };

    // The same of a target's record, behind the id of its root.
    fn on_target(&self, segment: &mut [u8], p: usize, k: usize, id: usize) -> bool
        requires taken_on { TakenOn segment.old p k }
        requires size_bound { sized self.now ≤ 16364 }
        ensures { (segment.new
            ≡ relocated_on segment.old p
            (refilled (relocate (seen segment.old p) k (sized self.now + 8)) k
            (to_be 8 id ++ made self.now (drop 8 ((seen segment.old p).bytes k)))))
            × (result ≡ was_moved (relocate (seen segment.old p) k (sized self.now + 8))) };

    // To a new target, from the id's own slot.
    fn forward(&self, segment: &mut [u8], inventory: &mut [u8], id: usize) -> Result<usize, Refusal>
        requires sizes { Sizes segment.old inventory.old }
        requires taken_on { TakenOn segment.old (page_no id) (slot_no id) }
        requires size_bound { sized self.now ≤ 16364 }
        ensures { outcome result segment.new inventory.new
            ≡ result_of segment.old
            (forwarded (seg_view segment.old) inventory.old id (sized self.now) (made self.now)
            ((seen segment.old (page_no id)).bytes (slot_no id))
            (find found_in (seg_view segment.old) inventory.old (sized self.now + 8) (λ p. eqb p (page_no id)))) };

    // From the target t to the id's own slot. "Moving home frees the target."
    fn go_home(
        &self,
        segment: &mut [u8],
        inventory: &mut [u8],
        id: usize,
        t: usize,
    ) -> Result<usize, Refusal>
        requires sizes { Sizes segment.old inventory.old }
        requires follows { Follows segment.old id t }
        requires size_bound { sized self.now ≤ (seen segment.old (page_no id)).free_space }
        ensures { outcome result segment.new inventory.new
            ≡ result_of segment.old
            (at_home found_in (seg_view segment.old) inventory.old id (sized self.now) (made self.now) t
            (drop 8 ((seen segment.old (page_no t)).bytes (slot_no t)))
            (relocate (seen segment.old (page_no id)) (slot_no id) (sized self.now))) };

    // "Last comes a new target": from the target t.
    fn forward_again(
        &self,
        segment: &mut [u8],
        inventory: &mut [u8],
        id: usize,
        t: usize,
    ) -> Result<usize, Refusal>
        requires sizes { Sizes segment.old inventory.old }
        requires follows { Follows segment.old id t }
        requires size_bound { sized self.now ≤ 16364 }
        ensures { outcome result segment.new inventory.new
            ≡ result_of segment.old
            (forwarded_again (seg_view segment.old) inventory.old id (sized self.now) (made self.now) t
            (drop 8 ((seen segment.old (page_no t)).bytes (slot_no t)))
            (find found_in (seg_view segment.old) inventory.old (sized self.now + 8) (λ p. eqb p (page_no id) || eqb p (page_no t)))) };

    // Each impl proves that the bytes are as many as the size says.
    ghost long: { (c : Self) (old : List ℕ) → length (made c old) ≡ sized c };
}
