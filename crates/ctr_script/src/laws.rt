// What holds of the definitions, beside the program.
ghost use Rattle.std.specs.Prelude.{◌≡◌, ◌⊎◌, ℕ, List};
ghost use Rattle.ctr_types.specs.declared.statement.Line.{Line};
ghost use Rattle.ctr_model.specs.Language.{SpellsLine};
ghost use Rattle.ctr_model.specs.Lines.{IsWritten, IsRefusedIn};

use ctr_lex::one_lexing;
use ctr_parse::one_reading;

/// Bytes are one script, or refused at one place, and never both.
pub fn one_script()
    ensures said { (bytes : List ℕ) (ls ms : List Line) → IsWritten SpellsLine bytes ls → IsWritten SpellsLine bytes ms → ls ≡ ms }
    ensures place { (bytes : List ℕ) (line at other place : ℕ) → IsRefusedIn SpellsLine bytes line at
        → IsRefusedIn SpellsLine bytes other place → (line ≡ other) × (at ≡ place) }
    ensures never_both { (bytes : List ℕ) (ls : List Line) (line at : ℕ) → IsWritten SpellsLine bytes ls → IsRefusedIn SpellsLine bytes line at → ⊥ }
    ensures one_of_both { (bytes : List ℕ) → ((ls : List Line) × IsWritten SpellsLine bytes ls) ⊎ ((line at : ℕ) × IsRefusedIn SpellsLine bytes line at) }
{
    one_lexing();
    one_reading();
}
