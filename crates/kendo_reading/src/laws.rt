//! Laws of the definitions.

ghost use Rattle.std.specs.Prelude.{◌≡◌, ℕ, List};
ghost use Rattle.syntax.specs.Tree.{File};
ghost use Rattle.kendo_reading.specs.Reading.{Reads};

/// A source has at most one reading.
pub fn one_reading()
    ensures { (text : List ℕ) (first second : File) → Reads text first → Reads text second → first ≡ second }
{}
