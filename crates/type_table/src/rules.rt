//! The rules that a declared type may break.

/// A rule for declared types. Of several that one declaration breaks, the first in this order is told.
#[derive(Clone, Copy, Debug, PartialEq, Eq, Drop)]
pub(crate) enum TypeRule {
    /// P10: the generic name and the types among the arguments are known.
    NamesKnown,
    /// P12: the arguments are those that the table asks.
    ArgumentsFit,
    /// P13: a written info is what holds of the type.
    InfoFits,
    /// P15: the type doesn't reach itself.
    NoCycle,
    /// P16: the type is within the limits.
    WithinLimits,
    /// P17: the id and the type are declared once.
    DeclaredOnce,
}
