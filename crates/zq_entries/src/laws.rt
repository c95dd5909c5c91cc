//! The law of spellings of entries.

ghost use Rattle.std.specs.Prelude.{Ok, ◌≡◌};
ghost use Rattle.zq_entries.specs.Entry as model;
ghost use Rattle.zq_entries.specs.Reading.{entry_at};
ghost use Rattle.zq_entries.specs.Spelling.{entry_bytes};

use zq_links::piece_has_one_spelling;

/// A spelling is read as its entry. So each entry has one spelling, and no two have the same.
pub fn entry_has_one_spelling()
    ensures again { (e : model.Entry) → model.IsEntry e → entry_at (entry_bytes e) ≡ Ok e }
    ensures same { (d e : model.Entry) → model.IsEntry d → model.IsEntry e →
        entry_bytes d ≡ entry_bytes e → d ≡ e }
{
    // For the proof: the same of pieces.
    piece_has_one_spelling();
}
