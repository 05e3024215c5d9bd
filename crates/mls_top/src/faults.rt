//! What messages say of the faults of texts.
ghost use Rattle.std.specs.Prelude.{◌≡◌};
ghost use Rattle.mls_top.specs.Lines.{fault_text, interface_fault_text};

use mls_iface::interface::IfaceFault;
use mls_syntax::parse::Fault;

/// What messages say of a fault; of want of memory nothing.
pub fn fault_text(fault: &Fault) -> &'static str
    ensures { result.now ≡ fault_text fault.now }
{
    match fault {
        Fault::BadByte(_) => "a byte that begins no token",
        Fault::BigNumber(_) => "a number above 9223372036854775807",
        Fault::Unexpected(_, _) => "unexpected token",
        Fault::Ended => "the text ends too early",
        Fault::TooDeep(_) => "nesting above 200",
        Fault::UnknownName(_) => "unknown name",
        Fault::DuplicateBinding(_) => "name bound twice",
        Fault::DuplicateLabel(_) => "label given twice",
        Fault::DuplicateImport(_) => "module imported twice",
        Fault::Memory => "",
    }
}

/// What messages say of a fault of an interface; of want of memory nothing.
pub fn interface_fault_text(fault: &IfaceFault) -> &'static str
    ensures { result.now ≡ interface_fault_text fault.now }
{
    match fault {
        IfaceFault::BadByte(_) => "a byte that begins no token",
        IfaceFault::BigNumber(_) => "a number above 9223372036854775807",
        IfaceFault::Unexpected(_, _) => "unexpected token in a type",
        IfaceFault::Ended => "the type ends too early",
        IfaceFault::NotPolar(_) => "not a polar type",
        IfaceFault::Unguarded(_) => "unguarded recursion",
        IfaceFault::Contravariant(_) => "contravariant recursion",
        IfaceFault::DuplicateLabel(_) => "label given twice",
        IfaceFault::DuplicateVal(_) => "name declared twice",
        IfaceFault::Memory => "",
    }
}
