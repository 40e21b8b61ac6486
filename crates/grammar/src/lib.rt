// Grammars as tables of owed items, and the theorem that word-by-word reading gives the answer that a text deserves.
#![tactic(auto)]

ghost use Rattle.grammar.specs.Answers.{ReadingStandsByTable};

// The theorem, as the contract of a function that does nothing: for all types of items I, of words W, of roles R, of memos M
// and of causes C.
pub fn reading_stands<I, W, R, M0, C>()
    ensures { ReadingStandsByTable I W R M0 C }
{}
