//! What a control file says.

use decimal_e::Dec;
use param_ids::{ParamId, Scales};
use snx_epoch::Epoch;

/// From which of its blocks a file is taken: key `form` of a file, `Auto` where it is not given.
#[derive(Clone, Copy, Debug, PartialEq, Eq)]
pub enum Form {
    /// `auto`: from its normal equations, where it has them, and else from its solution.
    Auto,
    /// `neq`: from its normal equations.
    Neq,
    /// `solution`: from its solution.
    Solution,
}

/// Which of the constraints that a solution reports are removed: key `constraints` of a file, `Auto` where it is not given.
#[derive(Clone, Copy, Debug, PartialEq, Eq)]
pub enum Held {
    /// `auto`: those of its a priori matrix, where it has one.
    Auto,
    /// `matrix`: those of its a priori matrix.
    Matrix,
    /// `sigma`: those of the standard deviations of its a priori values.
    Sigma,
    /// `none`: none.
    Nothing,
}

/// Where a parameter is reduced: key `at` of a reduction, which must be given.
#[derive(Clone, Copy, Debug, PartialEq, Eq)]
pub enum Place {
    /// `file`: in the normal equations of a file.
    File,
    /// `group`: in the sum of a group.
    Group,
    /// `end`: in the sum of all.
    End,
}

/// A file that is combined.
#[derive(Drop)]
pub struct FilePlan {
    /// Its name. In a control file 1 to 60 bytes from 33 to 126, and no other file's.
    pub name: String,
    /// Its weight, without a unit: positive, of at most 9 digits; 1 where it is not given.
    pub weight: Dec,
    /// The group that it is in, 1 to 8 bytes from 33 to 126; empty where it is in none.
    pub group: String,
    /// From which of its blocks it is taken.
    pub form: Form,
    /// Which of its constraints are removed.
    pub held: Held,
}

/// A site of the datum. Texts stand at the left, with blanks behind them, as in a parameter's name.
#[derive(Clone, Copy, Debug, PartialEq, Eq)]
pub struct Site {
    /// Its code.
    pub code: [u8; 4],
    /// Its point.
    pub point: [u8; 2],
    /// The solution; a number has no leading zeros.
    pub soln: [u8; 4],
}

/// The rows that give a datum: one of the standard deviations at least is given, each positive and of at most 9 digits.
#[derive(Drop)]
pub struct Datum {
    /// The sites, 1 to 100 of them, none of them twice.
    pub sites: Vec<Site>,
    /// The standard deviation of the rows of translation, in metres; there are no such rows where it is not given.
    pub translation: Option<Dec>,
    /// That of the rows of rotation, for 10^7 metres of the earth's radius; likewise.
    pub rotation: Option<Dec>,
    /// That of the row of scale, for as many; likewise.
    pub scale: Option<Dec>,
}

/// A parameter that is reduced. No parameter is reduced twice.
#[derive(Drop)]
pub struct Reduction {
    /// Where.
    pub place: Place,
    /// The name of a listed file, or a group that a file has; empty at the end.
    pub of: String,
    /// The parameter.
    pub id: ParamId,
}

/// What a control file says. An empty text is not given.
#[derive(Drop)]
pub struct Control {
    /// The agency that combines, 3 bytes from 33 to 126; `XXX` for a single file.
    pub agency: [u8; 3],
    /// When the combined file is made; `Never` for a single file.
    pub created: Epoch,
    /// The technique, a letter from A to Z; `C` where it is not given.
    pub technique: u8,
    /// What the solution contains, a letter from A to Z; `S` where it is not given.
    pub content: u8,
    /// A text of the combined file's header, at most 60 bytes from 32 to 126, as the next two.
    pub description: String,
    /// What the output is.
    pub output: String,
    /// Whom to ask.
    pub contact: String,
    /// The listed file whose a priori values are taken.
    pub reference: String,
    /// How many threads work, from 1 to 16; 1 where it is not given.
    pub workers: usize,
    /// The files, 1 to 64 of them, in the order of the control file.
    pub files: Vec<FilePlan>,
    /// The datum, if one is given.
    pub datum: Option<Datum>,
    /// The reductions, in the order of the control file.
    pub reductions: Vec<Reduction>,
    /// The scale exponents, each from -4 to 6: 6 for `RS_RA` and `RS_DE`, if they are not given, and 0 for what has none.
    pub scales: Scales,
}
