// Lists of forms.

ghost use Rattle.std.specs.Prelude.{◌≡◌, ◌≤◌, ◌+◌, IfOk, get_or, length};
ghost use Rattle.js_code.specs.Tables.{part_of};

use crate::machine::Machine;
use js_store::store::Store;
use lava_base::memory::OutOfMemory;

impl<S: Store> Machine<S> {
    /// A number of a list; 0 where there is none.
    #[inline]
    pub fn number(&self, at: u32) -> u32
        ensures { result ≡ get_or self.now.code.numbers at 0 }
    {
        self.code.number(at)
    }

    /// How many there are of so many numbers from a place on.
    #[inline]
    #[tactic(auto, using(crate::proofs::Listed::part_most))]
    pub fn listed(&self, start: u32, count: u32) -> Result<u32, OutOfMemory>
        ensures there { let part = part_of start count self.now.code.numbers in
            IfOk result (λ n. n ≡ length part) }
        ensures fits { IfOk result (λ n. start + n ≤ 4294967296) }
        ensures most { IfOk result (λ n. n ≤ count) }
    {
        let there = self.code.numbers(start, count).len();
        if there > 4294967296 - start as usize {
            return Err(OutOfMemory);
        }
        Ok(there as u32)
    }
}
