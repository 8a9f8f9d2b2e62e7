//! Copies of functions, globals and units.

use crate::tree::{Attribute, Function, Global, Initialiser, Item, Parameter, Unit};
use containers::Copied;
use std::alloc::{AllocError, Allocator};

impl<A: Allocator + Copy> Copied<A> for Parameter<A> {
    fn copy(&self, alloc: A) -> Result<Parameter<A>, AllocError> {
        let name = self.name.copy(alloc)?;
        Ok(Parameter { ty: self.ty, name })
    }
}

impl<A: Allocator + Copy> Copied<A> for Attribute {
    fn copy(&self, _alloc: A) -> Result<Attribute, AllocError> {
        Ok(*self)
    }
}

impl<A: Allocator + Copy> Copied<A> for Initialiser {
    fn copy(&self, _alloc: A) -> Result<Initialiser, AllocError> {
        Ok(*self)
    }
}

impl<A: Allocator + Copy> Copied<A> for Function<A> {
    fn copy(&self, alloc: A) -> Result<Function<A>, AllocError> {
        let attributes = self.attributes.copy(alloc)?;
        let name = self.name.copy(alloc)?;
        let parameters = self.parameters.copy(alloc)?;
        let body = self.body.copy(alloc)?;
        Ok(Function {
            attributes,
            result: self.result,
            name,
            parameters,
            body,
        })
    }
}

impl<A: Allocator + Copy> Copied<A> for Global<A> {
    fn copy(&self, alloc: A) -> Result<Global<A>, AllocError> {
        let name = self.name.copy(alloc)?;
        let first = self.first.copy(alloc)?;
        Ok(Global {
            ty: self.ty,
            name,
            length: self.length,
            first,
        })
    }
}

impl<A: Allocator + Copy> Copied<A> for Item<A> {
    fn copy(&self, alloc: A) -> Result<Item<A>, AllocError> {
        match self {
            Item::Function(f) => Ok(Item::Function(f.copy(alloc)?)),
            Item::Globals(gs) => Ok(Item::Globals(gs.copy(alloc)?)),
        }
    }
}

impl<A: Allocator + Copy> Copied<A> for Unit<A> {
    fn copy(&self, alloc: A) -> Result<Unit<A>, AllocError> {
        let items = self.items.copy(alloc)?;
        Ok(Unit {
            items,
            end: self.end,
            key: self.key,
        })
    }
}
