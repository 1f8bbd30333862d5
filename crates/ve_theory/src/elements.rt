//! Sums, scalings and products of elements.

ghost use Rattle.ve_theory.specs.Laws.{SumsAddCoefficients, SumsExtend, ProductsAreBilinear, ReducedListsAreUnique};

/// A sum adds coefficients, and a scaling multiplies them.
pub fn sums_add_coefficients()
    ensures { SumsAddCoefficients }
{}

/// Replacing keys by sums is linear, and alike for alike sums.
pub fn sums_extend()
    ensures { SumsExtend }
{}

/// Products are determined: alike for alike factors, linear in both, and words joined for single words.
pub fn products_are_bilinear()
    ensures { ProductsAreBilinear }
{}

/// There is one list of terms for an element, and for a row.
pub fn reduced_lists_are_unique()
    ensures { ReducedListsAreUnique }
{}
