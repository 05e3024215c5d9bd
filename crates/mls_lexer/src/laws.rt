//! Laws of tokens, each the contract of a function that does nothing.
ghost use Rattle.mls_lexer.specs.Laws.{OneReading, NoFaultBesideTokens, OneFirstFault, TokensOrFault};
ghost use Rattle.mls_lexer.specs.Laws.{TokensAreTerminals, WrittenIsRead};

/// A text has one list of tokens.
pub fn one_reading()
    ensures { OneReading }
{}

/// A text that has tokens has no fault.
pub fn no_fault_beside_tokens()
    ensures { NoFaultBesideTokens }
{}

/// A text has one first fault.
pub fn one_first_fault()
    ensures { OneFirstFault }
{}

/// A text has tokens or a first fault.
pub fn tokens_or_fault()
    ensures { TokensOrFault }
{}

/// Without their places the tokens of a text are names, numbers up to the largest, reserved words and symbols.
pub fn tokens_are_terminals()
    ensures { TokensAreTerminals }
{}

/// Any list of such is read from what it is written as, with a space between one and the next.
pub fn written_is_read()
    ensures { WrittenIsRead }
{}
