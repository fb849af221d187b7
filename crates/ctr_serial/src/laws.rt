// Tapes that have the statements of a script's lines in order. A call does nothing: what it ensures is the law.
ghost use Rattle.std.specs.Prelude.{◌≡◌, ◌+◌, ℕ, List, [], ◌∷◌, ◌++◌, Some, slice_get};
ghost use Rattle.std.specs.List.{AllByRecursion};
ghost use Rattle.ctr_types.specs.declared.statement.Line.{Line};
ghost use Rattle.ctr_types.specs.declared.tape.Entry.{Entry};
ghost use Rattle.ctr_model.specs.Tape.{IsSerial};
ghost use Rattle.ctr_serial.specs.Lines.{HasLines, IsEntryOfLine, count_in};

/// A tape that has the statements of the first lines is serial, and with the entries of the next line's statement behind them it has one line more.
pub fn a_tape_of_lines_is_serial()
    ensures serial { (lines : List Line) (k : ℕ) (es : List Entry) → HasLines lines k es → IsSerial lines es }
    ensures more { (lines : List Line) (k : ℕ) (l : Line) (front : List Entry) (e : Entry) (es : List Entry) → slice_get lines k ≡ Some l → HasLines lines k front
        → AllByRecursion (IsEntryOfLine l.session (count_in lines k l.session + 1)) (e ∷ es) → HasLines lines (k + 1) (front ++ e ∷ es) }
{}
