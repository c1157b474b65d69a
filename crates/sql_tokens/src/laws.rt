//! Laws of the tokens of a text, each proved of all texts.
ghost use Rattle.std.specs.Prelude.{◌≡◌, ◌↔◌, ◌⊎◌, ℕ, List, Some};
ghost use Rattle.sql_tokens.specs.Form.{IsLineComment};
ghost use Rattle.sql_tokens.specs.Weight.{HoldsWeight, weight_length};
ghost use Rattle.sql_tokens.specs.declared.token.Token.{Token};
ghost use Rattle.sql_tokens.specs.declared.token_list.TokenFault.{TokenFault};
ghost use Rattle.sql_tokens.specs.Ahead.{ahead, Tells};
ghost use Rattle.sql_tokens.specs.Cut.{AreTokens, HasFault};

/// A text has one list of tokens.
pub fn one_list()
    ensures { (text : List ℕ) (a b : List Token) → AreTokens text a → AreTokens text b → a ≡ b }
{}

/// A text has one first fault.
pub fn one_fault()
    ensures { (text : List ℕ) (e f : TokenFault) → HasFault text e → HasFault text f → e ≡ f }
{}

/// A text has tokens or a fault.
pub fn some_answer()
    ensures { (text : List ℕ) → ((list : List Token) × AreTokens text list) ⊎ ((e : TokenFault) × HasFault text e) }
{}

/// A text that has tokens has no fault.
pub fn tokens_or_fault()
    ensures { (text : List ℕ) (list : List Token) (e : TokenFault) → AreTokens text list → HasFault text e → ⊥ }
{}

/// A line comment gives the weight that its bytes spell, and no other.
pub fn one_weight()
    ensures { (comment : List ℕ) (n : ℕ) → IsLineComment comment → (weight_length comment ≡ Some n) ↔ HoldsWeight comment n }
{}

/// What a reader has before it at the front of a text are the text's tokens, or those before its first fault, and that
/// fault.
pub fn tokens_ahead()
    ensures { (text : List ℕ) → Tells text (ahead text 0).tokens (ahead text 0).fault }
{}
