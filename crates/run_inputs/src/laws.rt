//! Laws of what is read.

ghost use Rattle.run_inputs.specs.Single.{OneCommand, OneRun, OneReading};

/// What a command reads is one thing: its words, its control file, and the files of its control.
pub fn one_reading()
    ensures command { OneCommand }
    ensures control { OneRun }
    ensures inputs { OneReading }
{}
