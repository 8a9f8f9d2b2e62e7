//! What names stand for, and the types and places of expressions.

use crate::action::Action;
use crate::warning::Warning;
use lex::token::Scalar;
use name_tables::{Scope, Table};
use std::alloc::{AllocError, Allocator};
use syntax::tree::{Expr, Global, Item};
use syntax::types::{binary_type, common_of, unary_type};

/// What a name of the file stands for.
#[derive(Clone, Copy)]
pub(crate) enum FileName {
    Number(Scalar),
    Array(Scalar, u64),
    /// A function, by the type of its value.
    Callable(Option<Scalar>),
}

/// The names of the file.
pub(crate) type FileNames<'a, A> = Table<'a, FileName, A>;

/// A local: its type, and the number of the action that declares it.
#[derive(Clone, Copy)]
pub(crate) struct Local {
    pub(crate) ty: Scalar,
    pub(crate) declared: usize,
}

/// A body that is read: the locals in scope at a point of it, its actions up to there, and its warnings.
#[derive(Drop)]
pub(crate) struct Body<'a, A: Allocator + Copy> {
    pub(crate) locals: Scope<'a, Local, A>,
    pub(crate) actions: Vec<Action<'a>, A>,
    pub(crate) found: Vec<Warning, A>,
}

impl<'a, A: Allocator + Copy> Body<'a, A> {
    /// A body of which nothing was read; the hashes of names are by this key.
    pub(crate) fn new(alloc: A, key: u64) -> Body<'a, A> {
        Body {
            locals: Scope::new(alloc, key),
            actions: Vec::new(alloc),
            found: Vec::new(alloc),
        }
    }

    /// A further action.
    pub(crate) fn add(&mut self, action: Action<'a>) -> Result<(), AllocError> {
        self.actions.push(action)?;
        Ok(())
    }

    /// A further local.
    pub(crate) fn declare(&mut self, name: &'a str, ty: Scalar) -> Result<(), AllocError> {
        let declared = self.actions.len();
        self.actions.push(Action::Declares)?;
        self.locals.declare(name, Local { ty, declared })
    }

    /// The locals after so many of them are forgotten.
    pub(crate) fn leave(&mut self, start: usize) {
        let start = start.min(self.locals.len());
        self.locals.leave(start);
    }
}

/// What a global is.
fn file_name<A: Allocator>(global: &Global<A>) -> FileName {
    match global.length {
        Some((length, _)) => FileName::Array(global.ty, length),
        None => FileName::Number(global.ty),
    }
}

/// The names of a program's file.
pub(crate) fn file_names<'a, A: Allocator + Copy>(
    alloc: A,
    key: u64,
    items: &'a [Item<A>],
) -> Result<FileNames<'a, A>, AllocError> {
    let mut names = Table::new(alloc, key);
    'items: for item in items {
        match item {
            Item::Function(f) => {
                names.declare(f.name.text.as_str(), FileName::Callable(f.result))?;
            }
            Item::Globals(all) => {
                'globals: for global in all {
                    names.declare(global.name.text.as_str(), file_name(global))?;
                }
            }
        }
    }
    Ok(names)
}

/// The type of a name's number, of an element's where the name is an array's, or of a call's value.
fn type_of_name<A: Allocator + Copy>(file: &FileNames<'_, A>, name: &str) -> Option<Scalar> {
    match file.get(name) {
        Some(FileName::Number(ty)) | Some(FileName::Array(ty, _)) => Some(*ty),
        Some(FileName::Callable(ty)) => *ty,
        None => None,
    }
}

/// The type of the number that an expression gives.
pub(crate) fn type_of<A: Allocator + Copy>(
    file: &FileNames<'_, A>,
    locals: &Scope<'_, Local, A>,
    e: &Expr<A>,
) -> Option<Scalar> {
    match e {
        Expr::Variable(x) => match locals.newest(x.text.as_str()) {
            Some((_, local)) => Some(local.ty),
            None => type_of_name(file, x.text.as_str()),
        },
        Expr::Constant(_, ty, _) => Some(*ty),
        Expr::Element(x, _, _) | Expr::Call(x, _, _) => type_of_name(file, x.text.as_str()),
        Expr::Parenthesized(e, _) => type_of(file, locals, e.get()),
        Expr::Cast(to, _, _) => Some(*to),
        Expr::Unary(op, e, _) => unary_type(*op, type_of(file, locals, e.get())),
        Expr::Binary(op, a, b, _) => binary_type(
            *op,
            type_of(file, locals, a.get()),
            type_of(file, locals, b.get()),
        ),
        Expr::Logical(_, _, _, _) => Some(Scalar::Int),
        Expr::Conditional(_, a, b, _) => common_of(
            type_of(file, locals, a.get()),
            type_of(file, locals, b.get()),
        ),
        Expr::InTransaction(_, _, e, _) => type_of(file, locals, e.get()),
    }
}
