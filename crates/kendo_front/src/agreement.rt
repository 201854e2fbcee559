//! The compiler and the interpreter agree.

ghost use Rattle.std.specs.Prelude.{ℕ, List, Option};
ghost use Rattle.kendo_front.specs.Agreement.{Agree};
ghost use Rattle.kendo_reading.specs.Reading.{Reads};
ghost use Rattle.meaning.specs.Source.{source_kind};
ghost use Rattle.whole_run.specs.Runs.{IsWhole};
ghost use Rattle.syntax.specs.Tree.{File};
ghost use Rattle.word.specs.declared.end.End.{End as Ending};

/// Two runs of a program at one limit that both end, by the compiler or by the interpreter, wrote the same bytes and ended
/// alike.
pub fn runs_agree()
    ensures { (text : List ℕ) (limit : ℕ) (file again : File) (old new other others : Option (List ℕ)) (e d : Ending) → Reads text file → Reads text again → IsWhole (source_kind file) limit old new e → IsWhole (source_kind again) limit other others d → Agree old new other others e d }
{}
