//! Laws of names, scopes and the ends of statements. A law has no code: its contract is its statement.

ghost use Rattle.syntax.specs.ScopeLaws.{BodiesAreTyped, CalledAreDefined, EndsFit, LocalsExact, ScopeFits, TypesAgree};

/// In a typed program a known function has a definition, with the types of its first declaration, and the body of each
/// definition is typed in the scope of the items up to it. When it is called, its environment as it runs agrees with
/// that scope.
pub fn called_functions_are_defined()
    ensures defined { CalledAreDefined }
    ensures typed { BodiesAreTyped }
{}

/// If the names that are known in one scope denote the same in another, a typed expression has the same type in both,
/// and it has one if it is not void. If the scopes agree before a statement runs, they agree after it.
pub fn scopes_agree()
    ensures types { TypesAgree }
    ensures after { ScopeFits }
{}

/// After a statement the local variables are, by name and type, those before it and those that it declares.
pub fn locals_are_exact()
    ensures { LocalsExact }
{}

/// A statement that is typed outside loops ends by no `break` and by no `continue`.
pub fn ends_fit()
    ensures { EndsFit }
{}
