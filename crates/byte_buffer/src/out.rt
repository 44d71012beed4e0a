//! What is to be printed: a buffer of bytes that the caller keeps. A contract sees its bytes, and how many it has room for.

ghost use Rattle.std.specs.Prelude.{◌≡◌, ◌≤◌, [], ◌∷◌, ◌++◌, length, take, IsOk, IfOk, OnOk, OnErr};
ghost use Rattle.byte_buffer.specs.Outs.{HasRoomLeft, Pushes};

use std::alloc::{AllocError, Global};
use std::marker::Model;

/// Bytes that are to be printed, the first ones of a vector that is all the room there is.
#[derive(Debug, Drop)]
pub struct Out {
    room: Vec<u8>,
    len: usize,
}

impl Model for Out {
    ghost use Rattle.std.specs.Prelude.{◌≤◌, length, take};
    ghost use Rattle.byte_buffer.specs.Outs.{Buffered};

    ghost Value = { Buffered };

    ghost view = { λ o. record {
      bytes = take o.len o.room.items;
      capacity = length o.room.items;
    } };

    ghost invariant = { λ o. o.len ≤ length o.room.items };
}

impl Out {
    /// Nothing, and room for nothing: it takes memory when it is first needed.
    pub fn new(alloc: Global) -> Out
        ensures bytes { result.bytes ≡ [] }
        ensures capacity { result.capacity ≡ 0 }
    {
        Out {
            room: Vec::new(alloc),
            len: 0,
        }
    }

    /// Nothing, and room for so many bytes. The error is out of memory.
    pub fn with_capacity(alloc: Global, capacity: usize) -> Result<Out, AllocError>
        ensures bytes { IfOk result (λ o. o.bytes ≡ []) }
        ensures capacity { IfOk result (λ o. o.capacity ≡ capacity) }
    {
        Ok(Out {
            room: Vec::from_elem(alloc, 0, capacity)?,
            len: 0,
        })
    }

    /// The bytes.
    pub fn as_slice(&self) -> &[u8]
        ensures { result.now ≡ self.now.bytes }
    {
        &self.room[..self.len]
    }

    /// The bytes, in a vector that has no others.
    pub fn into_vec(self) -> Vec<u8>
        ensures { result.items ≡ self.bytes }
    {
        let mut room = self.room;
        room.truncate(self.len);
        room
    }

    /// The number of bytes.
    pub fn len(&self) -> usize
        ensures { result ≡ length self.now.bytes }
    {
        self.len
    }

    /// How many bytes fit.
    pub fn capacity(&self) -> usize
        ensures { result ≡ self.now.capacity }
    {
        self.room.len()
    }

    /// Lets all bytes go, and keeps the room.
    pub fn clear(&mut self)
        ensures bytes { self.new.bytes ≡ [] }
        ensures capacity { self.new.capacity ≡ self.old.capacity }
    {
        self.len = 0;
    }

    /// Lets all bytes behind the first ones go, and keeps the room.
    pub fn truncate(&mut self, len: usize)
        ensures bytes { self.new.bytes ≡ take len self.old.bytes }
        ensures capacity { self.new.capacity ≡ self.old.capacity }
    {
        if len < self.len {
            self.len = len;
        }
    }

    /// Makes room for so many more bytes, and takes memory only where they don't fit. The error is out of memory, and then all is as it was.
    pub fn reserve(&mut self, count: usize) -> Result<(), AllocError>
        ensures ok { OnOk result (HasRoomLeft self.new count) }
        ensures bytes { self.new.bytes ≡ self.old.bytes }
        ensures err { OnErr result (self.new ≡ self.old) }

        // Where they fit it can't fail, and the room is as before; it never shrinks.
        ensures succeeds { HasRoomLeft self.old count → IsOk result }
        ensures stays { HasRoomLeft self.old count → self.new.capacity ≡ self.old.capacity }
        ensures capacity { self.old.capacity ≤ self.new.capacity }
    {
        if count <= self.room.len() - self.len {
            return Ok(());
        }
        match self.len.checked_add(count) {
            Some(len) => self.room.resize(len, 0),
            None => Err(AllocError),
        }
    }

    /// Appends bytes, and takes memory only where they don't fit. The error is out of memory, and then all is as it was.
    pub fn push(&mut self, bytes: &[u8]) -> Result<(), AllocError>
        ensures pushes { Pushes bytes.now self.old result self.new }
        ensures err { OnErr result (self.new ≡ self.old) }
    {
        self.reserve(bytes.len())?;
        self.push_within(bytes);
        Ok(())
    }

    /// Appends one byte, and takes memory only where it doesn't fit. The error is out of memory, and then all is as it was.
    pub fn push_byte(&mut self, byte: u8) -> Result<(), AllocError>
        ensures pushes { Pushes (byte ∷ []) self.old result self.new }
        ensures err { OnErr result (self.new ≡ self.old) }
    {
        self.reserve(1)?;
        self.put(byte);
        Ok(())
    }

    /// Appends bytes that fit. It takes no memory, and can't fail.
    pub fn push_within(&mut self, bytes: &[u8])
        requires { HasRoomLeft self.old (length bytes.now) }
        ensures bytes { self.new.bytes ≡ self.old.bytes ++ bytes.now }
        ensures capacity { self.new.capacity ≡ self.old.capacity }
    {
        let end = self.len + bytes.len();
        self.room[self.len..end].copy_from_slice(bytes);
        self.len = end;
    }

    /// Appends one byte that fits.
    fn put(&mut self, byte: u8)
        requires { HasRoomLeft self.old 1 }
        ensures bytes { self.new.bytes ≡ self.old.bytes ++ byte ∷ [] }
        ensures capacity { self.new.capacity ≡ self.old.capacity }
    {
        self.room[self.len] = byte;
        self.len += 1;
    }
}
