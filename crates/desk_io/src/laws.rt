// What the definitions say at worked values. Each law is a function that does nothing.
ghost use Rattle.std.specs.Prelude.{◌≡◌, ◌≢◌, ◌+◌, ◌-◌, ◌^◌, ◌<◌, ◌∷◌, ◌↔◌, ℕ, [], true, false, List, Option, Some, None, Result, Ok, Err};
ghost use Rattle.desk_io.specs.Content.{Content, IsFront};
ghost use Rattle.desk_io.specs.Desk.{HasCause, Rose};
ghost use Rattle.desk_io.specs.Whole.{HasReadCause, HoldsPart, WritesFile};
ghost use Rattle.desk_io.specs.Outputs.{NamedText, HoldsWhole, CutAmong, Writing};
ghost use Rattle.desk_io.specs.declared.desk.DeskError.{DeskError};
ghost use Rattle.desk_io.specs.declared.desk.DeskError.TheVariants.{Fault};
ghost use Rattle.desk_io.specs.declared.whole.ReadError.TheVariants as read;

/// Below its type's end, a count rose exactly where it is greater than before. A fault needs a rise, and an answer
/// needs that there is none.
pub fn rises_are_real()
    ensures rise { (before now : ℕ) → before < 2 ^ 64 - 1 → Rose before now ↔ (before < now) }
    ensures none { ¬ (Rose 0 0) }
    ensures one { Rose 0 1 }
    ensures fault { ¬ (HasCause {T = Unit {0}} 0 0 (Err Fault)) }
    ensures answer { ¬ (HasCause {T = Unit {0}} 0 1 (Ok tt)) }
    ensures no_file { ¬ (HasReadCause {T = Unit {0}} 0 1 (Err read.NoFile)) }
{}

/// A front is a beginning: the whole list and the empty one are fronts, and neither an end of the list nor another
/// list is one.
pub fn fronts_are_beginnings()
    ensures whole { (text : List ℕ) → IsFront text text }
    ensures empty { (text : List ℕ) → IsFront [] text }
    ensures first { IsFront (1 ∷ []) (1 ∷ 2 ∷ []) }
    ensures last { ¬ (IsFront (2 ∷ []) (1 ∷ 2 ∷ [])) }
    ensures longer { ¬ (IsFront (1 ∷ 2 ∷ []) (1 ∷ [])) }
{}

/// A file that is finished isn't a cut one, nor is one whose bytes don't begin the text.
pub fn parts_are_fronts()
    ensures finished { (name text bytes : List ℕ) (new : Content)
        → new.files name ≡ Some (record { bytes = bytes; finished = true }) → ¬ (HoldsPart name text new) }
    ensures no_front { (name text bytes : List ℕ) (new : Content)
        → new.files name ≡ Some (record { bytes = bytes; finished = false }) → ¬ (IsFront bytes text) → ¬ (HoldsPart name text new) }
{}

/// Writing one output is writing a file. Of two that stopped, the second isn't whole, unless it was before.
pub fn outputs_come_in_order()
    ensures one { (output : NamedText) (old new : Content) (result : Result (Unit {0}) DeskError)
        → Writing (output ∷ []) old new result → WritesFile output.name output.text old new result }
    ensures two { (first second : NamedText) (old new : Content) → first.name ≢ second.name → old.files second.name ≡ None
        → CutAmong (first ∷ second ∷ []) old new → ¬ (HoldsWhole second new) }
{}
