//! What a text says.

ghost use Rattle.std.specs.Prelude.{◌≡◌};
ghost use Rattle.snx_blocks.specs.Documents.{empty_doc};
ghost use Rattle.snx_blocks.specs.Views.{doc_view};

use snx_matrices::{Cell, Content};
use snx_rows::Row;
use snx_sites::{EpochRow, SiteRow};

/// A matrix over the rows of a block.
#[derive(Drop)]
pub struct Matrix {
    /// What its elements are.
    pub content: Content,
    /// The elements that are given and not zero, each once, in the order in which they stand in the text.
    pub cells: Vec<Cell>,
}

/// What a text says: each block that is read, or none where it does not stand in the text.
#[derive(Drop)]
pub struct Doc {
    /// SOLUTION/ESTIMATE: estimates, with their standard deviations if they have any.
    pub estimates: Option<Vec<Row>>,
    /// SOLUTION/APRIORI: a priori values.
    pub apriori: Option<Vec<Row>>,
    /// SOLUTION/NORMAL_EQUATION_VECTOR: the right sides of normal equations.
    pub vector: Option<Vec<Row>>,
    /// SOLUTION/MATRIX_ESTIMATE, over the rows of the estimates.
    pub estimate_matrix: Option<Matrix>,
    /// SOLUTION/MATRIX_APRIORI, over the rows of the a priori values.
    pub apriori_matrix: Option<Matrix>,
    /// SOLUTION/NORMAL_EQUATION_MATRIX, over the rows of the right sides. Its content is Info.
    pub normal_matrix: Option<Matrix>,
    /// SITE/ID.
    pub sites: Option<Vec<SiteRow>>,
    /// SOLUTION/EPOCHS.
    pub epochs: Option<Vec<EpochRow>>,
}

impl Doc {
    /// What a text without any of these blocks says.
    pub(crate) fn empty() -> Doc
        ensures { doc_view result ≡ empty_doc }
    {
        Doc {
            estimates: None,
            apriori: None,
            vector: None,
            estimate_matrix: None,
            apriori_matrix: None,
            normal_matrix: None,
            sites: None,
            epochs: None,
        }
    }
}
