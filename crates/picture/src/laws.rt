//! Laws of pictures. A law has no code: its contract is what it says.

ghost use Rattle.std.specs.Prelude.{◌≡◌, ◌==◌, ℕ, List, false};
ghost use Rattle.std.specs.List.{list_any};
ghost use Rattle.picture.specs.Boxes.{source_xml};
ghost use Rattle.picture.specs.Figures.{xml};

/// No title holds a `<`: no line of a timeline can end its title, or begin another glyph.
pub fn no_title_holds_a_bracket()
    ensures { (line : List ℕ) → list_any (λ b. b == 60) (xml line) ≡ false }
{}

/// Nor does what a box's title shows of a source.
pub fn no_source_holds_a_bracket()
    ensures { (text : List ℕ) → list_any (λ b. b == 60) (source_xml text) ≡ false }
{}
