//! Laws of quoted texts, words, values and chunks. The functions do nothing; their contracts are the laws.
ghost use Rattle.std.specs.Prelude.{◌≡◌, List, Ok, ℕ};
ghost use Rattle.jfr_layout.specs.Classes.{Classes, Sound};
ghost use Rattle.jfr_layout.specs.declared.shape.Shape.{Shape};
ghost use Rattle.jfr_value.specs.Values.{Value};
ghost use Rattle.jfr_build.specs.Accepted.{IsBuiltOf};
ghost use Rattle.jfr_build.specs.Builds.{build_of};
ghost use Rattle.jfr_build.specs.Laws.{TakenIsRead, TakesExactly, UnquotesExactly};

/// Words give a value of a shape exactly if they are the words of its leaves, one for each, in order.
pub fn words_are_taken()
    ensures { (k : Classes) (s : Shape) (words : List (List ℕ)) (v : Value) → Sound k → TakesExactly k s words v }
{}

/// A word is read as a quoted text exactly if it is this text between two quotes. In it, a quote and a backslash
/// have a backslash before them, and a space, the characters below it and U+007F are `\u` and four digits.
pub fn texts_are_unquoted()
    ensures { (word text : List ℕ) → UnquotesExactly word text }
{}

/// A value that is taken from words is read from its bytes again. So the fields of each event that is built,
/// and the value of each entry, are read with the leaves of their lines.
pub fn taken_values_are_read()
    ensures { (k : Classes) (s : Shape) (words : List (List ℕ)) (v : Value) → Sound k → TakenIsRead k s words v }
{}

/// A chunk that is built is accepted. Its classes are those of the lines, its events are the events of the
/// lines in order, and its constants are those of the lines, class by class.
pub fn built_is_accepted()
    ensures { (text chunk : List ℕ) → build_of text ≡ Ok chunk → IsBuiltOf text chunk }
{}
