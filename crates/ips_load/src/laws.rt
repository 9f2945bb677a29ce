//! Laws of the texts of records.

ghost use Rattle.std.specs.Prelude.{◌≡◌, ℕ, List, map};
ghost use Rattle.ips_fmri.specs.declared.fmri.Fmri as fmri;
ghost use Rattle.ips_records.specs.Lines.{lines_text};
ghost use Rattle.ips_mediate.specs.declared.set.SetMediator as mediator;
ghost use Rattle.ips_state.specs.Lawful.{AreStems, AreVersioned, AreMediators};
ghost use Rattle.ips_state.specs.Text.{name_lines, mediator_line};

/// The law of records that list one thing a line: no two such lists have one text.
pub fn lists_are_one()
    ensures stems { (a b : List (List ℕ)) → AreStems a → AreStems b → lines_text a ≡ lines_text b → a ≡ b }
    ensures names { (a b : List fmri.Fmri) → AreVersioned a → AreVersioned b → lines_text (name_lines a) ≡ lines_text (name_lines b) → a ≡ b }
    ensures mediators { (a b : List mediator.SetMediator) → AreMediators a → AreMediators b → lines_text (map mediator_line a) ≡ lines_text (map mediator_line b) → a ≡ b }
{}
