//! The field with a label.
ghost use Rattle.std.specs.Prelude.{◌≡◌, IsTrue};
ghost use Rattle.mls_book.specs.Books.{AreRising, field_at};

use mls_book::book::{Fields, NodeId};
use mls_book::name::Name;
use mls_deriv::lookup::field_of;

/// The node of the field with this label: by halves where the labels rise, and among all fields otherwise.
pub fn labelled(fields: &Fields, is_rising: bool, label: &Name) -> Option<NodeId>
    requires { IsTrue is_rising → AreRising fields.now }
    ensures { result ≡ field_at label.now fields.now }
{
    if is_rising {
        return field_of(fields.as_slice(), label);
    }
    fields.get(label)
}
