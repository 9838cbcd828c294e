ghost use Rattle.std.specs.Prelude.{◌≡◌, IfOk};

use crate::duplicate::Duplicate;
use crate::no_memory::NoMemory;
use std::alloc::Global;
use std::marker::Model;

/// A value in memory of its own, which contracts see as the value alone.
#[derive(Debug, Drop)]
pub struct Boxed<T> {
    inner: Box<T>,
}

impl<T> Model for Boxed<T> {
    ghost Value = { T };

    ghost coded = { T.code };

    ghost view = { λ boxed. boxed.inner.value };
}

impl<T> Boxed<T> {
    /// The allocator that the box was made with.
    pub fn alloc(&self) -> Global {
        *Box::allocator(&self.inner)
    }

    /// The value.
    pub fn get(&self) -> &T
        ensures { result.now ≡ self.now }
    {
        &self.inner
    }

    /// Gives the value out and the memory back.
    pub fn into_inner(self) -> T
        ensures { result ≡ self }
    {
        let Boxed { inner } = self;
        Box::into_inner(inner)
    }
}

impl<T: Drop> Boxed<T> {
    /// Puts `value` into memory of its own.
    pub fn new(alloc: Global, value: T) -> Result<Boxed<T>, NoMemory>
        ensures { IfOk result (λ boxed. boxed ≡ value) }
    {
        match Box::new(alloc, value) {
            Ok(inner) => Ok(Boxed { inner }),
            Err(_) => Err(NoMemory),
        }
    }
}

impl<T: Duplicate> Duplicate for Boxed<T> {
    fn copy(&self) -> Result<Boxed<T>, NoMemory> {
        Boxed::new(self.alloc(), self.get().copy()?)
    }
}
