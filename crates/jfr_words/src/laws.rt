//! Laws of command lines. The functions do nothing; their contracts are the laws.
ghost use Rattle.std.specs.Prelude.{◌≡◌, ℕ, List, OnSome};
ghost use Rattle.std.specs.List.{IsDistinct};
ghost use Rattle.std.specs.List.Sorted.{IsPermutation};
ghost use Rattle.jfr_words.specs.Words.{order_of};
ghost use Rattle.jfr_words.specs.Laws.{AreOptions, is_same_option, line};

/// Options may be given in any order: a line asks for the same, whichever way its options are ordered.
pub fn options_in_any_order()
    ensures { (command : List ℕ) (options others : List (List (List ℕ))) (rest : List (List ℕ)) → AreOptions command options
        → IsPermutation options others → order_of (line command others rest) ≡ order_of (line command options rest) }
{}

/// An option is given at most once: no two options of a line that gives an order are the same.
pub fn options_are_given_once()
    ensures { (command : List ℕ) (options : List (List (List ℕ))) (rest : List (List ℕ)) → AreOptions command options
        → OnSome (order_of (line command options rest)) (IsDistinct is_same_option options) }
{}
