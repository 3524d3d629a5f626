//! Putting the entries to which values refer into a worklist.
use crate::Pools;
use jfr_value::Visit;
use jfr_worklist::Worklist;

impl Visit<Pools> for Worklist {
    ghost use Rattle.std.specs.Prelude.{◌≡◌, [], ◌∷◌, length};
    ghost use Rattle.jfr_worklist.specs.Marks.{those};
    ghost use Rattle.jfr_worklist.specs.Putting.{Puts};
    ghost use Rattle.jfr_pool.specs.Entries.{number_in_force};

    ghost ready = { λ list pools. length list.flags.items ≡ length pools };

    ghost takes = { λ pools target old new. Puts (those (number_in_force pools) (target ∷ [])) old new };

    /// Puts the number of the entry in force for this class and key, if there is one.
    #[inline]
    fn visit(&mut self, pools: &Pools, class: u64, key: u64) {
        if let Some(number) = pools.entry(class, key) {
            self.put(number);
        }
    }
}
