//! A value that only its owner reaches. No call reads it behind a `&`, so threads may share it
//! wherever it may go to another thread.
ghost use Rattle.std.specs.Prelude.{◌≡◌};
ghost use Rattle.std.specs.Borrow.{ftrue};

use std::marker::Model;

/// A value that is put in whole and taken out whole.
pub(crate) struct Alone<X> {
    pub(crate) value: X,
}

// It owns its value, and a `&` to it shows nothing.
impl<X> Model for Alone<X> {
    ghost also_owns = { λ _. ftrue };
}

impl<X> Alone<X> {
    pub(crate) fn new(value: X) -> Alone<X>
        ensures { result.value ≡ value }
    {
        Alone { value }
    }

    pub(crate) fn into_inner(self) -> X
        ensures { result ≡ self.value }
    {
        let Alone { value } = self;
        value
    }
}

impl<X: Drop> Drop for Alone<X> {
    fn drop(self) {
        drop(self.into_inner());
    }
}

unsafe impl<X: Send> Send for Alone<X> {}

unsafe impl<X: Send> Sync for Alone<X> {}
