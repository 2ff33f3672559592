// Numbers that represent names in patterns.

/// The number of an object variable.
#[derive(Clone, Copy, PartialEq, Eq, PartialOrd, Ord, Hash, Debug)]
pub struct VarNo(pub u32);

/// The number of a sort's token.
#[derive(Clone, Copy, PartialEq, Eq, PartialOrd, Ord, Hash, Debug)]
pub struct MSort(pub u64);

/// The number of a constant's token. A constant is a symbol or a value.
#[derive(Clone, Copy, PartialEq, Eq, PartialOrd, Ord, Hash, Debug)]
pub struct ConstNo(pub u64);
