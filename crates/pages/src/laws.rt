//! Laws of pages. A law has no code: its contract is what it says.

ghost use Rattle.std.specs.Prelude.{ℕ, List};
ghost use Rattle.pages.specs.Escaped.{OpensNoTag};

/// No byte of the data of a page is `<`: nothing in a source, a name or an output ends its element.
pub fn no_data_opens_a_tag()
    ensures { (text : List ℕ) → OpensNoTag text }
{}
