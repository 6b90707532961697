// What the definitions say at worked values. Each law is a function that does nothing.
ghost use Rattle.std.specs.Prelude.{◌≡◌, ◌≢◌, ◌<◌, ◌∷◌, ◌*ℤ◌, ℕ, ℤ, pos, [], List, Option, Some, None, Ok, Err, codes};
ghost use Rattle.decimal_e.specs.Decimals.{Decimal};
ghost use Rattle.desk_io.specs.Content.{File, Content, IsFront};
ghost use Rattle.desk_io.specs.Outputs.{NamedText, HoldsWhole};
ghost use Rattle.sys_model.specs.Scaling.{LiesInStack};
ghost use Rattle.sys_model.specs.Systems.{System, Fractions, Table, Solves};
ghost use Rattle.bounds_report.specs.Bounds.{AreCertified, LiesBetween};
ghost use Rattle.bounds_report.specs.declared.numbers.Printed.{Printed};
ghost use Rattle.snx_lines.specs.declared.blocks.FrameCause.TheVariants as frames;
ghost use Rattle.snx_rows.specs.declared.causes.Cause.TheVariants as causes;
ghost use Rattle.snx_blocks.specs.declared.sections.Section.TheVariants as sections;
ghost use Rattle.file_recovery.specs.Recovery.{IsExact};
ghost use Rattle.file_recovery.specs.declared.faults.FileFault.TheVariants as files;
ghost use Rattle.named_tables.specs.declared.faults.RecoverFault.TheVariants as recovery;
ghost use Rattle.neq_stack.specs.Systems.{NamedSystem};
ghost use Rattle.control_doc.specs.declared.faults.ControlCause.TheVariants as controls;
ghost use Rattle.refusal_lines.specs.Refusals.{line_of};
ghost use Rattle.refusal_lines.specs.declared.refusal.Scope.TheVariants as places;
ghost use Rattle.refusal_lines.specs.declared.refusal.Refusal.TheVariants as refusals;
ghost use Rattle.combine_cli.specs.Alike.{AlikeAreAdmitted, AlikeCombine};
ghost use Rattle.combine_cli.specs.Causes.{refusal_of_recovery};
ghost use Rattle.combine_cli.specs.Dominance.{DominantStacksAreEnclosed};
ghost use Rattle.combine_cli.specs.Headline.{IsExactOf};
ghost use Rattle.combine_cli.specs.Runs.{StoppedAt};
ghost use Rattle.combine_cli.specs.Verdict.{Outcome, IsVerdict};
ghost use Rattle.combine_cli.specs.Worked.{one, half, one_and_three_tenths, worked_name, weighing, worked_document, worked_system, worked_file, worked_solution, freed_of_sigmas, bounded_by};

/// The bounds of a row are inequalities: 1 + 1/2 lies between 1.5 and 1.5, and neither above a lower bound that is greater by one
/// unit nor below an upper bound that is less by one. Numbers that are certified keep them in each row, the first among them,
/// and there is a solution.
pub fn bounds_hold_their_solutions()
    ensures both { LiesBetween (bounded_by (pos 15000000000000000) (pos 15000000000000000)) one (pos 1) 2 }
    ensures lower { ¬ (LiesBetween (bounded_by (pos 15000000000000001) (pos 15000000000000001)) one (pos 1) 2) }
    ensures upper { ¬ (LiesBetween (bounded_by (pos 14999999999999999) (pos 14999999999999999)) one (pos 1) 2) }
    ensures rows { (n : ℕ) (t : Table) (scale : ℕ → ℤ) (x0 : ℕ → Decimal) (p : ℕ → Printed) (S : System) (v : Fractions) (i : ℕ) → AreCertified n t scale x0 p
        → LiesInStack n t scale S → Solves n S v → i < n → LiesBetween (p i) (x0 i) (v.x i) v.s }
    ensures solvable { (n : ℕ) (t : Table) (scale : ℕ → ℤ) (x0 : ℕ → Decimal) (p : ℕ → Printed) (S : System) → AreCertified n t scale x0 p
        → LiesInStack n t scale S → (v : Fractions) × Solves n S v }
{}

/// The exact systems of a document with the matrix .4E+04 and the right side .25 are those of 4000 x = 1/4 at its one name, and
/// zero at every other; with the weight .5 both sides are half as great.
pub fn exact_systems_are_as_written()
    ensures some { IsExact (weighing one) worked_document worked_system }
    ensures matrix { (S : NamedSystem) → IsExact (weighing one) worked_document S → S.a worked_name worked_name ≡ pos 4000 *ℤ pos S.q }
    ensures vector { (S : NamedSystem) → IsExact (weighing one) worked_document S → S.c worked_name *ℤ pos 4 ≡ pos S.q }
    ensures weighted_matrix { (S : NamedSystem) → IsExact (weighing half) worked_document S → S.a worked_name worked_name ≡ pos 2000 *ℤ pos S.q }
    ensures weighted_vector { (S : NamedSystem) → IsExact (weighing half) worked_document S → S.c worked_name *ℤ pos 8 ≡ pos S.q }
{}

/// The exact systems of a solution with the estimate 1.5 and the information matrix 5 over one name, whose a priori value .1E+01 has the
/// standard deviation .5, are those of 1 x = 2.5, where the constraint of the standard deviation is removed: 5 less 1/.25, and 5 times .5.
pub fn solutions_lose_their_constraints()
    ensures matrix { (S : NamedSystem) → IsExact freed_of_sigmas worked_solution S → S.a worked_name worked_name ≡ pos S.q }
    ensures vector { (S : NamedSystem) → IsExact freed_of_sigmas worked_solution S → S.c worked_name *ℤ pos 2 ≡ pos 5 *ℤ pos S.q }
{}

/// The exact systems of two files with the matrices .4E+01 and .3E+01 and the right sides .2E+01 and .1E+01 over one name, whose a
/// priori value is .1E+01 in both, are those of 7 x = 3.
pub fn files_are_added()
    ensures matrix { (S : NamedSystem) → IsExactOf [] (worked_file (codes "a") one 4 2 ∷ worked_file (codes "b") one 3 1 ∷ []) S → S.a worked_name worked_name ≡ pos 7 *ℤ pos S.q }
    ensures vector { (S : NamedSystem) → IsExactOf [] (worked_file (codes "a") one 4 2 ∷ worked_file (codes "b") one 3 1 ∷ []) S → S.c worked_name ≡ pos 3 *ℤ pos S.q }
{}

/// The exact systems of two files with the matrix .4E+01 and the right side .2E+01 over one name, whose a priori value is .1E+01 in the
/// first and 1.3 in the second, are those of 8 x = 5.2 at the value of the first; and with the second as reference those of 8 x = 2.8 at
/// its value.
pub fn files_are_moved()
    ensures matrix { (S : NamedSystem) → IsExactOf [] (worked_file (codes "a") one 4 2 ∷ worked_file (codes "b") one_and_three_tenths 4 2 ∷ []) S → S.a worked_name worked_name ≡ pos 8 *ℤ pos S.q }
    ensures vector { (S : NamedSystem) → IsExactOf [] (worked_file (codes "a") one 4 2 ∷ worked_file (codes "b") one_and_three_tenths 4 2 ∷ []) S → S.c worked_name *ℤ pos 5 ≡ pos 26 *ℤ pos S.q }
    ensures referred { (S : NamedSystem) → IsExactOf (codes "b") (worked_file (codes "a") one 4 2 ∷ worked_file (codes "b") one_and_three_tenths 4 2 ∷ []) S → S.c worked_name *ℤ pos 5 ≡ pos 14 *ℤ pos S.q }
{}

/// Where a run stopped, an output's file that was not there before holds a beginning of the output's text. Where the second of
/// two stands, the first is whole.
pub fn stopped_outputs_are_fronts()
    ensures front { (output : NamedText) (old new : Content) (file : File) → StoppedAt (Ok (output ∷ [])) old new
        → old.files output.name ≡ None → new.files output.name ≡ Some file → IsFront file.bytes output.text }
    ensures others { (output : NamedText) (old new : Content) (name : List ℕ) → StoppedAt (Ok (output ∷ [])) old new
        → name ≢ output.name → new.files name ≡ old.files name }
    ensures first { (one two : NamedText) (old new : Content) (file : File) → StoppedAt (Ok (one ∷ two ∷ [])) old new
        → old.files two.name ≡ None → new.files two.name ≡ Some file → HoldsWhole one new }
{}

/// The lines of refusals, and the outcome of some words, at worked values.
pub fn refusals_are_told()
    ensures line { line_of (refusals.Line (codes "in") (record { line = 12; cause = causes.Size })) ≡ codes "snxcomb: in:12 Size\n" }
    ensures frame { line_of (refusals.Line (codes "in") (record { line = 10; cause = causes.Frame frames.NoEnd })) ≡ codes "snxcomb: in:10 NoEnd\n" }
    ensures key { line_of (refusals.Control controls.Key (codes "output.agency")) ≡ codes "snxcomb: control key output.agency\n" }
    ensures syntax { line_of (refusals.Control controls.Syntax []) ≡ codes "snxcomb: control syntax\n" }
    ensures many { line_of (refusals.TooMany (places.Group (codes "north")) 1001) ≡ codes "snxcomb: too many group:north 1001\n" }
    ensures block { line_of (refusal_of_recovery (codes "in") (files.MissingBlock sections.Apriori)) ≡ codes "snxcomb: block file:in SOLUTION/APRIORI\n" }
    ensures needed { line_of (refusal_of_recovery (codes "in") (files.MissingBlock sections.NormalMatrix))
        ≡ codes "snxcomb: block file:in SOLUTION/NORMAL_EQUATION_MATRIX\n" }
    ensures weight { line_of (refusal_of_recovery (codes "in") (files.Recovery (recovery.NoWeight worked_name))) ≡ codes "snxcomb: no weight file:in STAX/ABCD/A/1/00:000:00000\n" }
    ensures unmatched { line_of (refusal_of_recovery (codes "in") (files.Recovery (recovery.Unmatched worked_name))) ≡ codes "snxcomb: unmatched file:in STAX/ABCD/A/1/00:000:00000\n" }
    ensures empty { line_of (refusal_of_recovery (codes "in") (files.Recovery recovery.Empty)) ≡ codes "snxcomb: empty file:in\n" }
    ensures unit { line_of (refusals.UnitClash worked_name) ≡ codes "snxcomb: unit STAX/ABCD/A/1/00:000:00000\n" }
    ensures site { line_of (refusals.UnmatchedSite (record { code = codes "AAAA"; point = codes "A "; soln = codes "1   " })) ≡ codes "snxcomb: unmatched site AAAA/A/1\n" }
    ensures range { line_of (refusals.Range (places.File (codes "in")) worked_name worked_name)
        ≡ codes "snxcomb: range file:in STAX/ABCD/A/1/00:000:00000 STAX/ABCD/A/1/00:000:00000\n" }
    ensures pivot { line_of (refusals.Pivot places.Stack worked_name) ≡ codes "snxcomb: pivot stack STAX/ABCD/A/1/00:000:00000\n" }
    ensures no_words { (files : List ℕ → Option File) (outcome : Outcome) → IsVerdict [] files outcome → outcome ≡ Err refusals.Words }
    ensures no_file { (files : List ℕ → Option File) (from to : List ℕ) → from ≢ to → files from ≡ None
        → IsVerdict (codes "solve" ∷ from ∷ to ∷ []) files (Err (refusals.NoFile from)) }
{}

/// Two controls that differ in the order of their files, in the files' groups and in the number of workers: where the files of one
/// are admitted so are those of the other, and where one gives texts the other gives the same.
pub fn alike_controls()
    ensures admitted { AlikeAreAdmitted }
    ensures texts { AlikeCombine }
{}

/// A stack whose working table is dominant is refused neither for its pilot nor for its start vector nor for its certificate: where it
/// is refused, the numbers of a row can't be printed.
pub fn dominant_stacks_are_enclosed()
    ensures { DominantStacksAreEnclosed }
{}
