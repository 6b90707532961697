//! Laws of control files.

ghost use Rattle.control_doc.specs.Control.{OneControl};

/// A control file says one control at most, or has one first fault, and never both.
pub fn one_control()
    ensures { OneControl }
{}
