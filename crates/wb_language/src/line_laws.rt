//! Laws of the definitions of lines and words. Each law is the contract of a function that does nothing, so that checking the function
//! proves the law.

ghost use Rattle.std.specs.Prelude.{ℕ, List};
ghost use Rattle.wb_language.specs.Writing.{ReadsLines, ReadsWords, ReadsLiterals, IsMadeOfWords};

/// Lines that each end with a line feed are read as these lines, even if the last line has no line feed.
pub fn lines_are_read()
    ensures { (lines : List (List ℕ)) → ReadsLines lines }
{}

/// Words that are each followed by a blank are read as these words, and a quoted text is read as one word.
pub fn words_are_read()
    ensures { (words : List (List ℕ)) → ReadsWords words }
{}

/// Literals are exactly the texts between two quotes whose bytes are printable and aren't quotes.
pub fn literals_are_read()
    ensures { (word : List ℕ) (text : List ℕ) → ReadsLiterals word text }
{}

/// A line that says something is made of words: it has quotes only around literals.
pub fn lines_are_made_of_words()
    ensures { (line : List ℕ) → IsMadeOfWords line }
{}
