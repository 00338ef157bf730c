//! Laws of the grammars.
ghost use Rattle.std.specs.Prelude.{◌≡◌, ℕ, List, true};
ghost use Rattle.command_head.specs.Parts.{is_name};
ghost use Rattle.command_head.specs.Grammar.{ReadsGrammar, DerivesReg, DerivesNamed, DerivesPromote, DerivesImage, DerivesConvert, DerivesCombine, DerivesLanguages, DerivesLanguage, DerivesName, DerivesTest, DerivesLoad, DerivesAlone, ArePartsOfTexts};
ghost use Rattle.command_head.specs.Breaks.{BreaksGrammar, HasOneHead};
ghost use Rattle.command_head.specs.TestBreaks.{HasOneTest};

/// Reading a text gives the parts of a `reg` if and only if the grammar derives these parts so.
pub fn reads_grammar()
    ensures { ReadsGrammar }
{}

/// A fault is at the first part with which no head of a `reg` goes on; or at the text's length, where its parts begin a
/// head and are none. It is `Number` if and only if a number may be there, and one is there that does not fit 32 bits,
/// signed.
pub fn breaks_the_grammar()
    ensures { BreaksGrammar }
{}

/// A text has one head or one fault by a grammar, apart from out of memory.
pub fn one_head()
    ensures reg { HasOneHead DerivesReg }
    ensures named { (word : List ℕ) → HasOneHead (DerivesNamed word) }
    ensures promote { HasOneHead DerivesPromote }
    ensures image { (word : List ℕ) → HasOneHead (DerivesImage word) }
    ensures convert { HasOneHead DerivesConvert }
    ensures combine { HasOneHead DerivesCombine }
    ensures languages { (word : List ℕ) → HasOneHead (DerivesLanguages word) }
    ensures language { (word : List ℕ) → HasOneHead (DerivesLanguage word) }
    ensures name { (word : List ℕ) → HasOneHead (DerivesName word) }
    ensures test { HasOneTest }
    ensures load { HasOneHead DerivesLoad }
    ensures alone { (word : List ℕ) → HasOneHead (DerivesAlone word) }
{}

/// Parts that a grammar takes are the parts of some text, so that what is said of parts is said of texts.
pub fn parts_are_of_texts()
    ensures reg { ArePartsOfTexts DerivesReg }
    ensures named { (word : List ℕ) → is_name word ≡ true → ArePartsOfTexts (DerivesNamed word) }
    ensures promote { ArePartsOfTexts DerivesPromote }
    ensures image { (word : List ℕ) → is_name word ≡ true → ArePartsOfTexts (DerivesImage word) }
    ensures convert { ArePartsOfTexts DerivesConvert }
    ensures combine { ArePartsOfTexts DerivesCombine }
    ensures languages { (word : List ℕ) → is_name word ≡ true → ArePartsOfTexts (DerivesLanguages word) }
    ensures language { (word : List ℕ) → is_name word ≡ true → ArePartsOfTexts (DerivesLanguage word) }
    ensures name { (word : List ℕ) → is_name word ≡ true → ArePartsOfTexts (DerivesName word) }
    ensures test { ArePartsOfTexts DerivesTest }
{}
