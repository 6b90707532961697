//! The control of a single file.

ghost use Rattle.std.specs.Prelude.{◌≡◌, IfOk};
ghost use Rattle.control_doc.specs.Single.{alone_control, alone_plan};
ghost use Rattle.control_doc.specs.Valid.{IsValidControl};
ghost use Rattle.control_doc.specs.Views.{control_view, plan_view};

use crate::decimals::one;
use crate::plans::{Control, FilePlan, Form, Held};
use param_ids::Scales;
use snx_epoch::Epoch;
use std::alloc::{AllocError, Global};

/// The plan of a file of which nothing but its name is said.
fn plain_plan(alloc: Global, name: &str) -> Result<FilePlan, AllocError>
    ensures { IfOk result (λ plan. plan_view plan ≡ alone_plan name.now) }
{
    Ok(FilePlan {
        name: String::from_str(alloc, name)?,
        weight: one(),
        group: String::new(alloc),
        form: Form::Auto,
        held: Held::Auto,
    })
}

/// The control for one file alone, with all defaults.
fn plain_control(alloc: Global, name: &str) -> Result<Control, AllocError>
    ensures { IfOk result (λ control. control_view control ≡ alone_control name.now) }
{
    let mut files = Vec::new(alloc);
    files.push(plain_plan(alloc, name)?)?;
    let scales = Scales::standard(alloc)?;
    Ok(Control {
        agency: *b"XXX",
        created: Epoch::Never,
        technique: b'C',
        content: b'S',
        description: String::new(alloc),
        output: String::new(alloc),
        contact: String::new(alloc),
        reference: String::new(alloc),
        workers: 1,
        files,
        datum: None,
        reductions: Vec::new(alloc),
        scales,
    })
}

#[tactic(auto, using(crate::proofs::Validity::alone_kept))]
/// The control for one file alone, with all defaults. Its name may be any text.
///
/// # Errors
///
/// Want of memory.
pub fn alone(alloc: Global, name: &str) -> Result<Control, AllocError>
    ensures value { IfOk result (λ control. control_view control ≡ alone_control name.now) }
    ensures valid { IfOk result (λ control. IsValidControl (control_view control)) }
{
    plain_control(alloc, name)
}
