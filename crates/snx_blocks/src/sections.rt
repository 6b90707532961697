//! The blocks that are read.

ghost use Rattle.std.specs.Prelude.{◌≡◌};
ghost use Rattle.snx_blocks.specs.Sections.{section_of};

/// A block that is read.
#[derive(Clone, Copy, Debug, PartialEq, Eq)]
pub enum Section {
    /// SOLUTION/ESTIMATE.
    Estimates,
    /// SOLUTION/APRIORI.
    Apriori,
    /// SOLUTION/NORMAL_EQUATION_VECTOR.
    Vector,
    /// SOLUTION/MATRIX_ESTIMATE.
    EstimateMatrix,
    /// SOLUTION/MATRIX_APRIORI.
    AprioriMatrix,
    /// SOLUTION/NORMAL_EQUATION_MATRIX.
    NormalMatrix,
    /// SITE/ID.
    Sites,
    /// SOLUTION/EPOCHS.
    Epochs,
}

/// The block of a name, if it is read.
pub(crate) fn section_of(name: &[u8]) -> Option<Section>
    ensures { result ≡ section_of name.now }
{
    if name == b"SOLUTION/ESTIMATE".as_slice() {
        Some(Section::Estimates)
    } else if name == b"SOLUTION/APRIORI".as_slice() {
        Some(Section::Apriori)
    } else if name == b"SOLUTION/NORMAL_EQUATION_VECTOR".as_slice() {
        Some(Section::Vector)
    } else if name == b"SOLUTION/MATRIX_ESTIMATE".as_slice() {
        Some(Section::EstimateMatrix)
    } else if name == b"SOLUTION/MATRIX_APRIORI".as_slice() {
        Some(Section::AprioriMatrix)
    } else if name == b"SOLUTION/NORMAL_EQUATION_MATRIX".as_slice() {
        Some(Section::NormalMatrix)
    } else if name == b"SITE/ID".as_slice() {
        Some(Section::Sites)
    } else if name == b"SOLUTION/EPOCHS".as_slice() {
        Some(Section::Epochs)
    } else {
        None
    }
}
