//! What follows from the definitions: each law is the contract of a function that does nothing, by the
//! words of the contracts of `decode` and `Machine::step`. The statements stand in `specs/Laws`.

ghost use Rattle.riscv.specs.Laws.{WordsAreBytes, ZeroStaysZero, UnsignedDivides, SignedDivides, BytesAreKept};
ghost use Rattle.riscv.specs.Laws.{HalvesAreKept, WordsAreKept, OperandsAreFields};

/// The bytes of an aligned word lie one behind the other, the lowest first.
pub fn words_are_bytes()
    ensures { WordsAreBytes }
{}

/// Register 0 is 0 after each step, if it was before.
pub fn zero_stays_zero()
    ensures { ZeroStaysZero }
{}

/// What DIVU and REMU give are a quotient and its remainder.
pub fn unsigned_divides()
    ensures { UnsignedDivides }
{}

/// What DIV and REM give are a quotient toward zero and its remainder, where the quotient is not too large.
pub fn signed_divides()
    ensures { SignedDivides }
{}

/// What was stored at an address is what a load there gives.
pub fn stores_are_kept()
    ensures bytes { BytesAreKept }
    ensures halves { HalvesAreKept }
    ensures words { WordsAreKept }
{}

/// The operands of a decoded instruction are those of the word: its registers are the fields of the word, and its
/// immediate is in the range of its format.
pub fn operands_are_fields()
    ensures { OperandsAreFields }
{}
