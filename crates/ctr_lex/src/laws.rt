// What holds of the definitions, beside the program.
ghost use Rattle.std.specs.Prelude.{◌≡◌, ◌∷◌, ◌++◌, ℕ, List};
ghost use Rattle.ctr_model.specs.Grammar.{Lexes};
ghost use Rattle.ctr_model.specs.Places.{IsBadAt, IsTokenAt};
ghost use Rattle.ctr_lex.specs.Tokens.{TokensStandInOrder, IsTakenApart};

/// Two lists of tokens that lex one line are equal.
pub fn one_lexing()
    ensures { (line : List ℕ) (a b : List (List ℕ)) → Lexes line a → Lexes line b → a ≡ b }
{}

/// A line has one first byte at which no token begins, behind the same tokens, or none.
pub fn one_bad_byte()
    ensures one { (line : List ℕ) (ts us : List (List ℕ)) (i j : ℕ) → IsBadAt line ts i → IsBadAt line us j → (i ≡ j) × (ts ≡ us) }
    ensures none { (line : List ℕ) (ts us : List (List ℕ)) (i : ℕ) → IsBadAt line ts i → Lexes line us → ⊥ }
{}

/// A token that stands in a line is one of its tokens, behind those before it.
pub fn tokens_stand()
    ensures lexed { (line : List ℕ) (ts us : List (List ℕ)) (t : List ℕ) (i : ℕ) → IsTokenAt line ts t i → Lexes line us
        → (more : List (List ℕ)) × (us ≡ ts ++ t ∷ more) }
    ensures before_bad { (line : List ℕ) (ts us : List (List ℕ)) (t : List ℕ) (i j : ℕ) → IsTokenAt line ts t i → IsBadAt line us j
        → (more : List (List ℕ)) × (us ≡ ts ++ t ∷ more) }
    ensures ordered { (line : List ℕ) (ts us : List (List ℕ)) (t u : List ℕ) (i j : ℕ) → IsTokenAt line ts t i → IsTokenAt line us u j
        → TokensStandInOrder ts t i us u j }
{}

/// Each line is taken apart.
pub fn each_line_is_taken()
    ensures { (line : List ℕ) → IsTakenApart line }
{}
