//! The leave to hand bytes over.

use std::marker::PhantomData;

/// The leave to hand bytes over. It borrows a hub whose edits are all on the device, so that it makes no other meanwhile.
#[derive(Drop)]
pub struct Permit<'a> {
    held: PhantomData<&'a ()>,
}

impl<'a> Permit<'a> {
    /// The leave, for as long as this is borrowed.
    pub(crate) fn over<X>(_held: &'a X) -> Permit<'a> {
        Permit { held: PhantomData }
    }
}
