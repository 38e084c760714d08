//! Heap-allocated connections.
ghost use Rattle.std.specs.Prelude.{◌≡◌, IfOk};
ghost use Rattle.std.specs.Borrow.{sem};
ghost use Rattle.connections.specs.Connection.{Begins};
ghost use Rattle.connections.specs.Lends.{lends_all};
ghost use Rattle.connections.specs.declared.five_tuple.Protocol.TheVariants.{Tcp};

use crate::connection::{Attachment, Beginning, Connection};
use std::alloc::{AllocError, Global};
use std::marker::Model;

/// A heap-allocated connection, so that the table moves a pointer instead of the connection. In a
/// contract its value is the connection.
#[derive(Drop)]
pub(crate) struct Boxed<T> {
    block: Box<Connection<T>>,
}

impl<T> Model for Boxed<T> {
    ghost use Rattle.connections.specs.declared.connection.Connection.{Connection};

    ghost Value = { Connection T };

    ghost view = { λ b. b.block.value };
}

impl<T: Attachment> Boxed<T> {
    /// Moves a connection to the heap. `AllocError` if there is no memory for it.
    #[inline(always)]
    pub(crate) fn new(alloc: Global, connection: Connection<T>) -> Result<Boxed<T>, AllocError>
        ensures { IfOk result (λ boxed. boxed ≡ connection) }
    {
        let block = Box::new(alloc, connection)?;
        Ok(Boxed { block })
    }

    /// Returns a connection that began with these segments. `AllocError` if there is no memory for
    /// it.
    pub(crate) fn of_beginning(alloc: Global, beginning: &Beginning) -> Result<Boxed<T>, AllocError>
        ensures begun { IfOk result (λ its. Begins beginning.now its) }
        ensures weight { IfOk result (λ its. its.weight ≡ 0) }
        ensures attached { IfOk result (λ its. T.IsBegun Tcp its.attachment) }
    {
        let mut connection = Boxed::new(alloc, Connection::of_segment(alloc, &beginning.first))?;
        connection.get_mut().accept(alloc, &beginning.first)?;
        match beginning.answer {
            Some(answer) => {
                connection.get_mut().accept(alloc, &answer)?;
                Ok(connection)
            }
            None => Ok(connection),
        }
    }

    /// Returns the connection.
    #[inline(always)]
    pub(crate) fn get(&self) -> &Connection<T>
        ensures { result.now ≡ self.now }
    {
        self.block.as_ref()
    }

    /// Returns the connection for writing.
    #[inline(always)]
    pub(crate) fn get_mut(&mut self) -> &mut Connection<T>
        ensures* writes_back { sem 𝓛 (lends_all T.row self.entry result) }
        ensures value { result.now ≡ self.old }
    {
        self.block.as_mut()
    }

    /// Returns the box itself.
    #[inline(always)]
    pub(crate) fn into_box(self) -> Box<Connection<T>>
        ensures { result.value ≡ self }
    {
        self.block
    }
}
