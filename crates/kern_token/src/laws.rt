ghost use Rattle.std.specs.Prelude.{◌≡◌, ℕ, List, ◌++◌, Result};
ghost use Rattle.kern_token.specs.Pieces.{Piece, IsPiece, Begins};
ghost use Rattle.kern_token.specs.Reading.{Reads, TokensStandInText, TokensAreInOrder};
ghost use Rattle.kern_token.specs.Stopping.{StopsBefore};
ghost use Rattle.kern_token.specs.declared.fault.KernFault.{KernFault};
ghost use Rattle.kern_token.specs.declared.token.Token.{Token};

/// Every text has exactly one reading: the tokens that it spells, or its first fault.
pub fn one_reading()
    ensures some { (text : List ℕ) → (reading : Result (List Token) KernFault) × Reads text reading }
    ensures one { (text : List ℕ) (a b : Result (List Token) KernFault)
        → Reads text a → Reads text b → a ≡ b }
{}

/// The tokens of a text stand in it one after another, each where its place and end say.
pub fn tokens_stand_in_order()
    ensures stand { TokensStandInText }
    ensures in_order { TokensAreInOrder }
{}

/// A piece is the longest at its place where the byte after it can't go on with it.
pub fn stopped_pieces()
    ensures { (piece : Piece) (rest : List ℕ) → IsPiece piece → StopsBefore piece rest
        → Begins (piece.bytes ++ rest) piece rest }
{}
