//! Classes and their layout: kinds, shapes, fields, and what makes a list of classes sound.
//!
//! `Classes::make` takes the classes of a chunk's metadata, and returns the sound classes or the first flaw;
//! so does `Classes::make_numbered`, if the names of fields have numbers already. A `Classes` value is always
//! sound. Classes are looked up by id or, in walks over many values, by their index in the list.
//!
//! Read `specs/Classes.antt` first, then `specs/Names.antt` and `specs/Laws.antt`.
#![tactic(auto)]

mod class;
mod class_layout;
mod classes;
mod event;
mod fault;
mod field_layout;
mod form;
mod fused;
mod index;
mod inline;
mod kind;
mod laws;
mod name;
mod numbers;
mod resolved;
mod shape;

pub use class::{ClassInfo, ClassList, FieldInfo, Fields};
pub use class_layout::ClassLayout;
pub use classes::Classes;
pub use fault::ClassFault;
pub use field_layout::FieldLayout;
pub use form::Form;
pub use fused::{FusedFields, FusedKind};
pub use kind::Kind;
pub use laws::{classes_are_known, fields_agree, ids_are_found, values_end};
pub use name::is_text;
pub use shape::Shape;
