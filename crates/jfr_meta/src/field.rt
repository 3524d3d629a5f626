//! Finding elements by name, reading ids from attributes, and the shapes that field elements describe.
ghost use Rattle.std.specs.Prelude.{◌≡◌, Some, map, IfOk};
ghost use Rattle.std.specs.Str.{bytes_eq};
ghost use Rattle.jfr_meta.specs.Attributes.{IsWord, named, text_at};
ghost use Rattle.jfr_meta.specs.Trees.{name_of, children_of};
ghost use Rattle.jfr_meta.specs.Described.{id_attribute, shape_of};

use crate::Element;
use crate::attributes::{attribute, first_value, flag_of, id_of, is_word, text_at};
use jfr_base::Words;
use jfr_layout::Shape;
use std::alloc::{AllocError, Global};

/// Whether the element has this name.
pub(crate) fn has_name(strings: &Words, element: &Element, name: &str) -> bool
    requires { IsWord name.now }
    ensures { result ≡ bytes_eq (text_at strings.now (name_of element.now)) name.now }
{
    is_word(text_at(strings, element.name()), name)
}

/// The children of the element with this name, in order.
pub(crate) fn named<'a>(
    alloc: Global,
    strings: &Words,
    element: &'a Element,
    name: &str,
) -> Result<Vec<&'a Element>, AllocError>
    requires { IsWord name.now }
    ensures ok { IfOk result (λ found. map (λ e. e.now) found.items ≡ named strings.now name.now (children_of element.now)) }
{
    let children = element.children().as_slice();
    children
        .iter()
        .filter(|child| has_name(strings, child, name))
        .collect(alloc)
}

/// The id that is the attribute with this key, if it is one.
pub(crate) fn id_attribute(strings: &Words, element: &Element, key: &str) -> Option<u64>
    requires { IsWord key.now }
    ensures { result ≡ id_attribute strings.now element.now key.now }
{
    id_of(attribute(strings, element, key)?.as_str())
}

/// The shape of a field element, if its class is an id and its marks are good.
#[tactic(auto, unfolding(crate::specs::Described::shape_of))]
pub(crate) fn shape_of(strings: &Words, element: &Element) -> Option<Shape>
    ensures { result ≡ shape_of strings.now element.now }
{
    let class = id_attribute(strings, element, "class")?;
    let constant = flag_of(
        first_value(strings, element, "constantPool"),
        "true",
        "false",
    )?;
    let array = flag_of(first_value(strings, element, "dimension"), "1", "0")?;
    Some(Shape {
        class,
        constant,
        array,
    })
}
