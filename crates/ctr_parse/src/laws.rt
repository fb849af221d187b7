// What holds of the definitions, beside the program.
ghost use Rattle.ctr_model.specs.Language.{SpellsStatement, SpellsLine};
ghost use Rattle.ctr_parse.specs.Answers.{ReadsOne};

use ctr_lex::{each_line_is_taken, one_bad_byte, one_lexing, tokens_stand};

/// A text is one statement, or goes wrong at one place, and never both; the same of a line of a script.
pub fn one_reading()
    ensures statement { ReadsOne SpellsStatement }
    ensures line { ReadsOne SpellsLine }
{
    each_line_is_taken();
    one_lexing();
    one_bad_byte();
    tokens_stand();
}
