//! The search for a class and a key among those that are used.
ghost use Rattle.std.specs.Prelude.{◌≡◌, slice_get, Some, None, Contains, IfSome};
ghost use Rattle.jfr_renumber.specs.Missing.{IsRising};

/// The index of a class and a key in a rising list; `None` exactly if they aren't among them. Allocates
/// nothing.
pub(crate) fn find(pairs: &[(u64, u64)], class: u64, key: u64) -> Option<usize>
    requires { IsRising pairs.now }
    ensures found { IfSome result (λ i. slice_get pairs.now i ≡ Some (class, key)) }
    ensures none { result ≡ None → Contains pairs.now (class, key) → ⊥ }
{
    pairs.binary_search(&(class, key)).ok()
}
