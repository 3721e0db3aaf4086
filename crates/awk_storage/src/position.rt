// Where variables, arrays and places of a program stand.

use awk_kinds::Special;

/// A variable, by its position: one of awk's own, one of the whole program by its slot, or a parameter of the call that is
/// run, by its index.
#[derive(Clone, Copy)]
pub enum Variable {
    Special(Special),
    /// NF, which is counted in the record.
    FieldCount,
    Global(u32),
    Local(u32),
}

/// An array, by its position: one of the whole program by its number, or a parameter of the call that is run, by its index.
#[derive(Clone, Copy)]
pub enum Array {
    Global(u32),
    Local(u32),
}

/// What can be assigned. The subscript of an element, and the number of a field, are values that were evaluated before.
#[derive(Clone, Copy)]
pub enum Place {
    Variable(Variable),
    Element(Array),
    Field,
}
