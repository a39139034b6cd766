//! Laws of written terms. The functions do nothing.

ghost use Rattle.std.specs.Prelude.{◌≡◌, ◌≢◌, ◌≤◌, ◌+◌, ◌*◌, ℕ, List, length};
ghost use Rattle.fs_model.specs.declared.sides.Pos.{Pos};
ghost use Rattle.nf_trees.specs.NormalTerms.{Polynomial, ArrayTerm, NoWrites};
ghost use Rattle.nf_trees.specs.Measures.{size_of, size_of_array};
ghost use Rattle.nf_terms.specs.Normal.{IsNormal, IsNormalArray};
ghost use Rattle.nf_terms.specs.Lists.{ListTerm, IsNormalList, size_of_list};
ghost use Rattle.nf_rel.specs.Literals.{NormalLiteral, True};
ghost use Rattle.nf_rel.specs.NormalLiterals.{IsNormalLiteral, size_of_literal};
ghost use Rattle.term_text.specs.TermTexts.{polynomial, array, list, polynomial_text, array_text, list_text};
ghost use Rattle.term_text.specs.SpellableTerms.{SpellsTermText};
ghost use Rattle.term_condition_text.specs.ConditionTexts.{condition_text, SpellsCondition};
ghost use Rattle.term_values.specs.NameMeanings.{Find};
ghost use Rattle.term_values.specs.TermValues.{exact, polynomial_value, array_value, list_value};
ghost use Rattle.term_values.specs.Conditions.{condition_value};
ghost use Rattle.term_writer.specs.WrittenTerms.{polynomial_written, array_written, list_written, literal_written};
ghost use Rattle.term_writer.specs.NamedSymbols.{IsNamed, IsShort, OfPolynomial, OfArray, OfList, OfLiteral};

/// The text that is written for a normal term is one of the grammar, where its symbols have names.
pub fn written_terms_are_spelled()
    ensures polynomial { (name : Pos → List ℕ) (find : Find) (p : Polynomial) → OfPolynomial (IsNamed name find) p → IsNormal p
        → SpellsTermText (polynomial_text (polynomial_written name p)) (polynomial (polynomial_written name p)) }
    ensures array { (name : Pos → List ℕ) (find : Find) (a : ArrayTerm) → OfArray (IsNamed name find) a → IsNormalArray a
        → SpellsTermText (array_text (array_written name a)) (array (array_written name a)) }
    ensures list { (name : Pos → List ℕ) (find : Find) (l : ListTerm) → OfList (IsNamed name find) l → IsNormalList l
        → SpellsTermText (list_text (list_written name l)) (list (list_written name l)) }
{}

/// What is written for a normal term stands for it again.
pub fn written_terms_mean_themselves()
    ensures polynomial { (name : Pos → List ℕ) (find : Find) (p : Polynomial) → OfPolynomial (IsNamed name find) p → IsNormal p
        → polynomial_value (exact find) (polynomial_written name p) ≡ p }
    ensures array { (name : Pos → List ℕ) (find : Find) (a : ArrayTerm) → OfArray (IsNamed name find) a → IsNormalArray a
        → array_value (exact find) (array_written name a) NoWrites ≡ a }
    ensures list { (name : Pos → List ℕ) (find : Find) (l : ListTerm) → OfList (IsNamed name find) l → IsNormalList l
        → list_value (exact find) (list_written name l) ≡ l }
{}

/// The text of a normal polynomial has at most 1 byte and 47 bytes for each unit of its size, that of an array or a list 47 for
/// each unit.
pub fn written_terms_are_short()
    ensures polynomial { (name : Pos → List ℕ) (p : Polynomial) → OfPolynomial (IsShort name) p → IsNormal p
        → length (polynomial_text (polynomial_written name p)) ≤ 1 + 47 * size_of p }
    ensures array { (name : Pos → List ℕ) (a : ArrayTerm) → OfArray (IsShort name) a → IsNormalArray a
        → length (array_text (array_written name a)) ≤ 47 * size_of_array a }
    ensures list { (name : Pos → List ℕ) (l : ListTerm) → OfList (IsShort name) l → IsNormalList l
        → length (list_text (list_written name l)) ≤ 47 * size_of_list l }
{}

/// The text that is written for a literal in normal form is one of the grammar, where its symbols have names.
pub fn written_literals_are_spelled()
    ensures { (name : Pos → List ℕ) (find : Find) (l : NormalLiteral) → OfLiteral (IsNamed name find) l → IsNormalLiteral l
        → SpellsCondition (condition_text (literal_written name l)) (literal_written name l) }
{}

/// What is written for a literal in normal form stands for it again. One that is true has no text.
pub fn written_literals_mean_themselves()
    ensures { (name : Pos → List ℕ) (find : Find) (l : NormalLiteral) → OfLiteral (IsNamed name find) l → IsNormalLiteral l
        → l ≢ True → condition_value (exact find) (literal_written name l) ≡ l }
{}

/// The text of a literal in normal form has at most 47 bytes for each unit of its size, less 3.
pub fn written_literals_are_short()
    ensures { (name : Pos → List ℕ) (l : NormalLiteral) → OfLiteral (IsShort name) l → IsNormalLiteral l
        → length (condition_text (literal_written name l)) + 3 ≤ 47 * size_of_literal l }
{}
