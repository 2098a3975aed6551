//! Laws of the definitions of tokens and faults.

ghost use Rattle.std.specs.Prelude.{◌≡◌, ◌⊎◌, ℕ, List, ◌++◌, All, length};
ghost use Rattle.asm_syntax.specs.declared.error.LexError.{LexError};
ghost use Rattle.asm_syntax.specs.declared.token.Kind.{Kind};
ghost use Rattle.asm_syntax.specs.declared.token.Token.{Token};
ghost use Rattle.asm_syntax.specs.Tokens.{Spells, IsLongest, AreTokens, IsFault, HasNumberInRange, StandInOrder};

/// A text has one longest token at its front at most.
pub fn one_token()
    ensures { (piece behind other rest : List ℕ) (k l : Kind) → piece ++ behind ≡ other ++ rest
        → Spells piece k → Spells other l → IsLongest piece behind → IsLongest other rest
        → (piece ≡ other) × (behind ≡ rest) }
{}

/// Bytes spell one kind of token at most.
pub fn one_kind()
    ensures { (text : List ℕ) (k l : Kind) → Spells text k → Spells text l → k ≡ l }
{}

/// Each text has tokens or a fault.
pub fn tokens_or_a_fault()
    ensures { (text : List ℕ) → ((ts : List Token) × AreTokens text ts) ⊎ ((e : LexError) × IsFault text e) }
{}

/// A text has one list of tokens at most.
pub fn one_list_of_tokens()
    ensures { (text : List ℕ) (ts us : List Token) → AreTokens text ts → AreTokens text us → ts ≡ us }
{}

/// A text that has tokens has no fault.
pub fn no_tokens_beside_a_fault()
    ensures { (text : List ℕ) (ts : List Token) (e : LexError) → AreTokens text ts → ¬ IsFault text e }
{}

/// A text has one first fault at most.
pub fn one_fault()
    ensures { (text : List ℕ) (e f : LexError) → IsFault text e → IsFault text f → e ≡ f }
{}

/// No number among the tokens of a text is too great.
pub fn numbers_in_range()
    ensures { (text : List ℕ) (ts : List Token) → AreTokens text ts → All HasNumberInRange ts }
{}

/// The tokens of a text are in it one after another.
pub fn tokens_in_order()
    ensures { (text : List ℕ) (ts : List Token) → AreTokens text ts → StandInOrder 0 ts (length text) }
{}
