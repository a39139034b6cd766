//! Laws of vectors. The functions do nothing.

ghost use Rattle.std.specs.Prelude.{◌≡◌, ◌&&◌, cond, Some, List};
ghost use Rattle.nf_trees.specs.Mentions.{same_pos};
ghost use Rattle.nf_terms.specs.Forms.{sort_of_form};
ghost use Rattle.fs_model.specs.declared.sides.Pos.{Pos as Position};
ghost use Rattle.nf_terms.specs.declared.symbols.Sort.{Sort};
ghost use Rattle.nf_terms.specs.declared.form.Nf.{Nf as Form};
ghost use Rattle.nf_terms.specs.TermSorts.{same_term_sort};
ghost use Rattle.nf_vectors.specs.Vectors.{form_at, with_form};

/// A law, with nothing to run: a form that is put stands for its position, and all others stay.
pub fn a_put_changes_one_form()
    ensures { (v : List (Position × Form)) (p q : Position) (f : Form) (s : Sort)
        → form_at s q (with_form p f v) ≡ cond (same_pos q p && same_term_sort s (sort_of_form f)) (Some f) (form_at s q v) }
{}
