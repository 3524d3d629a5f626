//! A hash table of the numbers of texts, which doesn't have the texts.
ghost use Rattle.std.specs.Prelude.{◌≡◌, ◌≢◌, ℕ, [], length, IfOk, IfSome, IsTrue, position};
ghost use Rattle.jfr_mask.specs.Slotted.{AreKept, AreSlotted, HasSlot, first_slot, is_empty, window};

use jfr_base::NoMemory;
use std::alloc::Global;

/// A new table has this many slots for each text.
const SLOTS_PER_TEXT: usize = 4;

/// The fewest slots, if there are any.
const FEWEST_SLOTS: usize = 1 << 10;

/// A text is in one of this many slots, from the one that its tag chooses. A search ends at an empty slot, so it seldom
/// reads more than two. With fewer, some texts would have no slot, and each new text would be looked up among these too.
const PROBES: usize = 64;

/// A slot of the table.
#[derive(Clone, Copy)]
pub(crate) struct Slot {
    /// The tag of the text: a part of its hash.
    pub(crate) tag: u32,
    /// The number of the text, or 0 if the slot is empty.
    pub(crate) number: u32,
}

/// A slot without a text.
const EMPTY: Slot = Slot { tag: 0, number: 0 };

/// The numbers of texts, by their tags. Each text is in its tag's window, with no empty slot before it. Texts can have
/// the same tag, so the user checks each number that it finds.
#[derive(Drop)]
pub(crate) struct Slots {
    slots: Vec<Slot>,
}

impl Slots {
    /// No slots. It allocates nothing.
    pub(crate) fn new(alloc: Global) -> Slots
        ensures { result.slots.items ≡ [] }
    {
        Slots {
            slots: Vec::new(alloc),
        }
    }

    /// Slots for twice this many texts, with the numbers that these slots hold. `None` if one of these numbers finds no
    /// slot, which takes texts that were chosen for their similar hashes. Only the tag decides where a text may be, so no
    /// text is hashed again.
    pub(crate) fn widened(&self, alloc: Global, texts: usize) -> Result<Option<Slots>, NoMemory>
        ensures kept { IfOk result (λ made. IfSome made (λ wider. AreKept self.now.slots.items wider.slots.items)) }
    {
        let size = texts.saturating_mul(SLOTS_PER_TEXT).max(FEWEST_SLOTS);
        let mut wider = Slots {
            slots: vec![in alloc; EMPTY; size]?,
        };
        if wider.put_all(self.slots.as_slice()) {
            Ok(Some(wider))
        } else {
            Ok(None)
        }
    }

    /// Puts what each of these slots holds, in their order. False if one didn't fit.
    fn put_all(&mut self, slots: &[Slot]) -> bool
        ensures { IsTrue result → AreSlotted slots.now self.new.slots.items }
    {
        // Greater tags are in later slots, so the new slots are written from front to back.
        for slot in slots {
            if slot.number == 0 {
                continue;
            }
            if !self.put_slot(*slot) {
                return false;
            }
        }
        true
    }

    /// Puts the number of a text with this tag. False if its window is full, or the number has more than 32 bits.
    pub(crate) fn put(&mut self, tag: u32, number: u64) -> bool
        ensures kept { AreKept self.old.slots.items self.new.slots.items }
        ensures put { IsTrue result → HasSlot self.new.slots.items tag number }
    {
        match u32::try_from(number) {
            Ok(number) => self.put_slot(Slot { tag, number }),
            Err(_) => false,
        }
    }

    /// Puts this into the first empty slot of its tag's window. False if there is none.
    fn put_slot(&mut self, slot: Slot) -> bool
        ensures kept { AreKept self.old.slots.items self.new.slots.items }
        ensures put { IsTrue result → HasSlot self.new.slots.items slot.tag slot.number }
    {
        let Some(step) = first_empty(self.window(slot.tag)) else {
            return false;
        };
        let first = first_slot(self.slots.len(), slot.tag);
        self.slots[first + step] = slot;
        true
    }

    /// The slots in which a text with this tag may be.
    pub(crate) fn window(&self, tag: u32) -> &[Slot]
        ensures { result.now ≡ window self.now.slots.items tag }
    {
        let first = first_slot(self.slots.len(), tag);
        match self.slots.get(first..first + PROBES) {
            Some(window) => window,
            None => &[],
        }
    }
}

/// With how many texts the next table is made, after one for this many was made, or wasn't. Until then a table that was
/// made has two slots for each text.
pub(crate) fn next_widening(texts: usize) -> usize {
    texts.saturating_mul(2).max(FEWEST_SLOTS / 2)
}

/// The first slot of a tag's window, in a table of this many slots. Greater tags have later ones.
fn first_slot(slots: usize, tag: u32) -> usize
    ensures { result ≡ first_slot slots tag }
{
    // The whole window is in the table, unless that is smaller.
    let firsts = slots.saturating_sub(PROBES) as u64;
    (u64::from(tag).wrapping_mul(firsts) >> 32) as usize
}

/// The index of the first empty slot.
fn first_empty(slots: &[Slot]) -> Option<usize>
    ensures { result ≡ position is_empty slots.now }
{
    slots.iter().position(|slot| slot.number == 0)
}
